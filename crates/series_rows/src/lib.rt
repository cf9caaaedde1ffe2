// Logarithm and inverse of a table: compositions with rows that are worked modulo m. No factorial is divided by.
#![tactic(auto)]

ghost use Rattle.std.specs.Prelude.{◌≡◌, ◌+◌, ◌-◌, ◌*◌, ◌<◌, ◌≤◌};
ghost use Rattle.theory.specs.Logarithm.{logarithm_of};
ghost use Rattle.theory.specs.Inverse.{inverse_of};
ghost use Rattle.residues.specs.Moduli.{Residue};
ghost use Rattle.composition.specs.Ready.{Ready, result_in};
ghost use Rattle.series_rows.specs.InverseRows.{row_space, EntryReady, InverseRow};

use composition::composition_table;
use residues::Modulus;

// A row for the most controls that a panel has.
const ROW_SPACE: usize = 17;

// -(k + 1) u entry, with m - 1 for -1.
fn next_entry(modulus: Modulus, u: u32, k: usize, entry: u32) -> u32
    requires { EntryReady modulus.value u k entry }
    ensures { Residue modulus.value ((modulus.value - 1) * ((k + 1) * (u * entry))) result }
{
    let count = modulus.reduce((k + 1) as u64);
    let product = modulus.multiply(count, modulus.multiply(u, entry));
    let minus_one = modulus.subtract(0, 1);
    modulus.multiply(minus_one, product)
}

// The row u, -u^2, 2! u^3, -3! u^4, .. from its place `start` on, with 0 before it.
fn inverse_row(modulus: Modulus, u: u32, start: usize) -> [u32; ROW_SPACE]
    requires { (u < modulus.value) × (start ≤ 1) }
    ensures { InverseRow modulus.value u start row_space result }
{
    let mut row = [0u32; ROW_SPACE];
    let mut entry = u;
    for i in start..ROW_SPACE {
        row[i] = entry;
        entry = next_entry(modulus, u, i - start, entry);
    }
    row
}

// The logarithm of a table with first entry 1: the composition of its other sets with the row 0, 1, -1, 2!, -3!, .. It is left in the
// workspace.
pub fn logarithm_table(n: usize, modulus: Modulus, e: &[u32], workspace: &mut [u32])
    requires { Ready n modulus.value e.now workspace.old }
    ensures { result_in n workspace.new ≡ logarithm_of n modulus.value e.now }
{
    let row = inverse_row(modulus, 1, 1);
    composition_table(n, modulus, e, &row, workspace);
}

// The inverse of a table whose first entry has the reciprocal u. It is left in the workspace.
pub fn inverse_table(n: usize, modulus: Modulus, u: u32, a: &[u32], workspace: &mut [u32])
    requires u_lt_value { u < modulus.value }
    requires ready { Ready n modulus.value a.now workspace.old }
    ensures { result_in n workspace.new ≡ inverse_of n modulus.value u a.now }
{
    let row = inverse_row(modulus, u, 0);
    composition_table(n, modulus, a, &row, workspace);
}
