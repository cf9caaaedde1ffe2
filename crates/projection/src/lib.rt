// The projection, by the transposed recursion of source 001 section 4, worked in the workspace that it is lent: the rows of a product
// in front, and two areas behind them. With k controls left an area holds n - k + 1 tables side by side; the next ones go into the
// other area.
#![tactic(auto)]

ghost use Rattle.std.specs.Prelude.{◌≡◌};
ghost use Rattle.definitions.specs.Projection.{projection_row};
ghost use Rattle.ranked_theory.specs.Rows.{Placed};
ghost use Rattle.projection.specs.Places.{AddReady, sum_at, TurnReady, TurnMade};
ghost use Rattle.projection.specs.Levels.{LevelReady, LevelMade, Ready};

use pads::{clear, power_of_two};
use pointwise::copy;
use ranked_within::{multiply_within, rows_length};
use residues::Modulus;
use std::mem::swap;

// The table of so many numbers at one place of the workspace is added to that at another. Either may stand first, so the loop goes by
// places of the one slice.
fn add_table(size: usize, modulus: Modulus, source: usize, target: usize, workspace: &mut [u32])
    requires { AddReady modulus.value size source target workspace.old }
    ensures { Placed (sum_at modulus.value source target workspace.old) target size workspace.old workspace.new }
{
    for i in 0..size {
        let to = target + i;
        workspace[to] = modulus.add(workspace[to], workspace[source + i]);
    }
}

// The upper half of the table of k + 1 controls at `lower` is added to the table at `here`; the product of its lower half and of b's
// entries for the sets whose highest control is k goes behind that.
fn next_table(
    k: usize,
    modulus: Modulus,
    b: &[u32],
    lower: usize,
    here: usize,
    workspace: &mut [u32],
)
    requires { TurnReady modulus.value k lower here b.now workspace.old }
    ensures { TurnMade modulus.value k lower here b.now workspace.old workspace.new }
{
    let size = power_of_two(k);
    let upper = lower + size;
    let next = here + size;
    let b_start = size;
    let b_end = b_start + size;
    add_table(size, modulus, upper, here, workspace);
    multiply_within(k, modulus, lower, next, &b[b_start..b_end], workspace);
}

// The tables of k controls, in one area, from those of k + 1 in the other. The first of them starts out as zeros, so that no turn
// differs from the others.
fn next_level(
    n: usize,
    k: usize,
    modulus: Modulus,
    b: &[u32],
    source: usize,
    target: usize,
    workspace: &mut [u32],
)
    requires { LevelReady modulus.value n k source target b.now workspace.old }
    ensures { LevelMade modulus.value n k source target b.now workspace.old workspace.new }
{
    let size = power_of_two(k);
    clear(size, &mut workspace[target..target + size]);
    for i in 0..n - k {
        let here = i * size;
        next_table(k, modulus, b, source + 2 * here, target + here, workspace);
    }
}

// The projection of two tables of n controls. With no controls left, table i is its entry i. b's first entry is not read.
pub fn projection_row(
    n: usize,
    modulus: Modulus,
    a: &[u32],
    b: &[u32],
    res: &mut [u32],
    workspace: &mut [u32],
)
    requires { Ready modulus.value n a.now b.now res.old workspace.old }
    ensures { res.new ≡ projection_row n modulus.value a.now b.now }
{
    let size = power_of_two(n);
    let first = rows_length(n);
    let second = first + size;
    copy(a, &mut workspace[first..second]);
    let mut source = first;
    let mut target = second;
    for k in (0..n).rev() {
        next_level(n, k, modulus, b, source, target, workspace);
        swap(&mut source, &mut target);
    }
    copy(&workspace[source..source + res.len()], res);
}
