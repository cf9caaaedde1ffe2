// The composition of a table with a row, worked in the workspace that it is lent: the rows of its products in front, its tables side
// by side behind them. It writes nothing else, so that the table may stand wherever a caller has it.
#![tactic(auto)]

ghost use Rattle.std.specs.Prelude.{◌≡◌, drop};
ghost use Rattle.definitions.specs.Partitions.{composition_table};
ghost use Rattle.composition.specs.Ready.{Ready, RowReady, ResultReady, result_in};
ghost use Rattle.composition.specs.Slots.{CopyReady, Copied, TurnReady, Turned, LevelReady, LevelRaised};

use pads::power_of_two;
use pointwise::copy;
use ranked_within::{multiply_within, rows_length};
use residues::Modulus;

// The table of so many numbers at one place of the workspace also stands at another: the same place, or one behind it. (A loop: for
// `copy_within` a C host would have to bring memmove.)
fn copy_table(size: usize, source: usize, target: usize, workspace: &mut [u32])
    requires { CopyReady size source target workspace.old }
    ensures { Copied size source target workspace.old workspace.new }
{
    for i in 0..size {
        workspace[target + i] = workspace[source + i];
    }
}

// Table i of k + 1 controls, in slots 2i and 2i + 1 from `start` on: its lower half is table i of k controls, its upper half the
// product of table i + 1 and of a's entries with control k alone of the controls from k on.
fn next_table(k: usize, i: usize, modulus: Modulus, start: usize, a: &[u32], workspace: &mut [u32])
    requires { TurnReady k i modulus.value start a.now workspace.old }
    ensures { Turned k i modulus.value a.now (drop start workspace.old) (drop start workspace.new) }
{
    let size = power_of_two(k);
    let shift = i * size;
    let slot = start + shift;
    let next = slot + size;
    let a_end = size + size;
    multiply_within(k, modulus, next, next + shift, &a[size..a_end], workspace);
    copy_table(size, slot, slot + shift, workspace);
}

// The tables of k + 1 controls from those of k, the last one first: so no slot is overwritten before it is read.
fn next_level(n: usize, k: usize, modulus: Modulus, start: usize, a: &[u32], workspace: &mut [u32])
    requires { LevelReady n k modulus.value start a.now workspace.old }
    ensures { LevelRaised n k modulus.value a.now (drop start workspace.old) (drop start workspace.new) }
{
    for i in (0..n - k).rev() {
        next_table(k, i, modulus, start, a, workspace);
    }
}

// The composition of a table of n controls with a row. At level k there are n - k + 1 tables of the first k controls side by side;
// table i is the composition with the row from its entry i on. The last one is left behind the rows. a's first entry is not read.
pub fn composition_table(n: usize, modulus: Modulus, a: &[u32], f: &[u32], workspace: &mut [u32])
    requires ready { Ready n modulus.value a.now workspace.old }
    requires row_ready { RowReady n modulus.value f.now }
    ensures { result_in n workspace.new ≡ composition_table n modulus.value f.now a.now }
{
    let start = rows_length(n);
    // with no controls, table i is the row's entry i
    let entries = n + 1;
    copy(&f[..entries], &mut workspace[start..start + entries]);
    for k in 0..n {
        next_level(n, k, modulus, start, a, workspace);
    }
}

// The table that a composition has left in the workspace, copied to a result.
pub fn take_result(n: usize, workspace: &[u32], res: &mut [u32])
    requires { ResultReady n workspace.now res.old }
    ensures { res.new ≡ result_in n workspace.now }
{
    let start = rows_length(n);
    copy(&workspace[start..start + res.len()], res);
}
