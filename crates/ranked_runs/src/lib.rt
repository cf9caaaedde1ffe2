// Runs of numbers in rows: one run added to another modulo m, or subtracted from it. Four numbers are read before one of them is
// stored, so that the machine works them at once; where the last four overlap the four before them, both store the same there.
#![tactic(auto)]

ghost use Rattle.std.specs.Prelude.{◌≡◌, ℕ, ◌+◌, ◌<◌, ◌≤◌, length};
ghost use Rattle.definitions.specs.Sums.{at};
ghost use Rattle.residues.specs.Values.{Below};
ghost use Rattle.ranked_theory.specs.Rows.{plus, minus, stored, Placed, Run, RunReady, PairReady};

use residues::Modulus;

// What a number of the upper run becomes, over the number of the lower run. Each step has a run of its own, with the step inside.
pub trait Step {
    ghost op: { ℕ → ℕ → ℕ → ℕ };

    fn of(modulus: Modulus, high: u32, low: u32) -> u32
        requires { Below modulus.value high low }
        ensures { result ≡ op modulus.value high low };
}

// The lower run is added.
pub struct Plus;

impl Step for Plus {
    ghost op = { plus };

    fn of(modulus: Modulus, high: u32, low: u32) -> u32 {
        modulus.add(high, low)
    }
}

// The lower run is subtracted.
pub struct Minus;

impl Step for Minus {
    ghost op = { minus };

    fn of(modulus: Modulus, high: u32, low: u32) -> u32 {
        modulus.subtract(high, low)
    }
}

// Not by `copy_from_slice`, which puts the four into memory first and asks whether they overlap.
fn store_four(to: usize, values: [u32; 4], rows: &mut [u32])
    requires { to + 4 ≤ length rows.old }
    ensures { Placed (at values) to 4 rows.old rows.new }
{
    for i in 0..4 {
        rows[to + i] = values[i];
    }
}

// What one number of a run becomes.
fn one<S: Step>(modulus: Modulus, lo: usize, hi: usize, rows: &[u32]) -> u32
    requires { PairReady modulus.value lo hi rows.now }
    ensures { result ≡ S.op modulus.value (at rows.now hi) (at rows.now lo) }
{
    S::of(modulus, rows[hi], rows[lo])
}

// What four numbers become.
fn four<S: Step>(modulus: Modulus, lo: usize, hi: usize, rows: &[u32]) -> [u32; 4]
    requires { RunReady modulus.value lo hi 4 rows.now }
    ensures { (i : ℕ) → i < 4 → at result i ≡ S.op modulus.value (at rows.now (hi + i)) (at rows.now (lo + i)) }
{
    [
        one::<S>(modulus, lo, hi, rows),
        one::<S>(modulus, lo + 1, hi + 1, rows),
        one::<S>(modulus, lo + 2, hi + 2, rows),
        one::<S>(modulus, lo + 3, hi + 3, rows),
    ]
}

// A run of less than four.
fn few<S: Step>(modulus: Modulus, lo: usize, hi: usize, count: usize, rows: &mut [u32])
    requires { RunReady modulus.value lo hi count rows.old }
    ensures { Run (S.op modulus.value) lo hi count rows.old rows.new }
{
    for i in 0..count {
        let place = hi + i;
        rows[place] = one::<S>(modulus, lo + i, place, rows);
    }
}

// A run of four to eight: its first four and its last four.
fn ends<S: Step>(modulus: Modulus, lo: usize, hi: usize, last: usize, rows: &mut [u32])
    requires run_ready { RunReady modulus.value lo hi (last + 4) rows.old }
    requires last_bound { last ≤ 4 }
    ensures { Run (S.op modulus.value) lo hi (last + 4) rows.old rows.new }
{
    let front = four::<S>(modulus, lo, hi, rows);
    let back = four::<S>(modulus, lo + last, hi + last, rows);
    store_four(hi, front, rows);
    store_four(hi + last, back, rows);
}

// A run of four or more. Its last four are worked first and stored last, so that the pieces before them may reach into them.
fn long<S: Step>(modulus: Modulus, lo: usize, hi: usize, last: usize, rows: &mut [u32])
    requires { RunReady modulus.value lo hi (last + 4) rows.old }
    ensures { Run (S.op modulus.value) lo hi (last + 4) rows.old rows.new }
{
    let back = four::<S>(modulus, lo + last, hi + last, rows);
    // no `step_by(4)`: it asks twice a turn whether to go on
    let mut i = 0;
    while i < last {
        let next = four::<S>(modulus, lo + i, hi + i, rows);
        store_four(hi + i, next, rows);
        i += 4;
    }
    store_four(hi + last, back, rows);
}

// rows[hi + i] takes rows[lo + i] by the step, for i < count.
pub fn run<S: Step>(modulus: Modulus, lo: usize, hi: usize, count: usize, rows: &mut [u32])
    requires { RunReady modulus.value lo hi count rows.old }
    ensures { Run (S.op modulus.value) lo hi count rows.old rows.new }
{
    if count < 4 {
        few::<S>(modulus, lo, hi, count, rows);
    } else {
        let last = count - 4;
        if last <= 4 {
            ends::<S>(modulus, lo, hi, last, rows);
        } else {
            long::<S>(modulus, lo, hi, last, rows);
        }
    }
}

// rows[hi] and the number after it become rows[lo] and the one after that. For so few `copy_within` is slower: it asks which end to
// begin at.
pub fn store_pair(lo: usize, hi: usize, rows: &mut [u32])
    requires { (lo + 2 ≤ hi) × (hi + 2 ≤ length rows.old) }
    ensures { Run stored lo hi 2 rows.old rows.new }
{
    let left = rows[lo];
    let right = rows[lo + 1];
    rows[hi] = left;
    rows[hi + 1] = right;
}
