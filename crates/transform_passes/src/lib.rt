// Transforms that act on one control at a time, in place: with n controls some n · 2^n steps each.
#![tactic(auto)]

ghost use Rattle.std.specs.Prelude.{◌≡◌, List, ℕ, ◌+◌, ◌%◌, ◌^◌, ◌<◌, ◌≤◌, length};
ghost use Rattle.definitions.specs.Sums.{tabulate, at};
ghost use Rattle.theory.specs.Passes.{crossed, pass};
ghost use Rattle.residues.specs.Moduli.{Below};
ghost use Rattle.checks.specs.Accepted.{Entries};
ghost use Rattle.pointwise.specs.Tables.{Ready};
ghost use Rattle.transform_passes.specs.Steps.{Step, zeta, moebius, walsh, KeepsResidues, zeta_keeps, moebius_keeps, walsh_keeps};
ghost use Rattle.transform_passes.specs.Steps.{Gives, FourBelow, FourOf, CanCrossFour, crossed_four, Applying, Transformed, Halves, products};

use residues::Modulus;

// What a transform does with one control: from x and y, the entries of a set without the control and of the set with it, come
// the new entries of the two.
pub trait Transform {
    ghost step: { Step };

    // The new entry of the set without the control.
    fn lower(modulus: Modulus, x: u32, y: u32) -> u32
        requires { Below modulus.value x y }
        ensures { Gives modulus.value (step.lower modulus.value x y) result };

    // The new entry of the set with the control.
    fn upper(modulus: Modulus, x: u32, y: u32) -> u32
        requires { Below modulus.value x y }
        ensures { Gives modulus.value (step.upper modulus.value x y) result };

    // Two controls: the new entries of the four sets.
    fn four(modulus: Modulus, x: Four) -> Four
        requires { FourBelow modulus.value x }
        ensures { FourOf (step.lower modulus.value) (step.upper modulus.value) x result };

    ghost keeps: { KeepsResidues step };
}

// The entries of four sets: one with neither of two controls, and the same with the first, the second and both of them.
#[derive(Clone, Copy)]
pub struct Four {
    neither: u32,
    first: u32,
    second: u32,
    both: u32,
}

// x and y + x: over all controls, the sums over subsets
#[derive(Clone, Copy)]
pub struct Zeta;

// x and y - x, which takes these back
#[derive(Clone, Copy)]
pub struct Moebius;

// x + y and x - y; made twice it multiplies by 2 for each control
#[derive(Clone, Copy)]
pub struct Walsh;

impl Transform for Zeta {
    ghost step = { zeta };

    ghost keeps = { zeta_keeps };

    fn lower(_modulus: Modulus, x: u32, _y: u32) -> u32 {
        x
    }

    fn upper(modulus: Modulus, x: u32, y: u32) -> u32 {
        modulus.add(y, x)
    }

    fn four(modulus: Modulus, x: Four) -> Four {
        let first = modulus.add(x.first, x.neither);
        let both = modulus.add(x.both, x.second);
        Four {
            neither: x.neither,
            first,
            second: modulus.add(x.second, x.neither),
            both: modulus.add(both, first),
        }
    }
}

impl Transform for Moebius {
    ghost step = { moebius };

    ghost keeps = { moebius_keeps };

    fn lower(_modulus: Modulus, x: u32, _y: u32) -> u32 {
        x
    }

    fn upper(modulus: Modulus, x: u32, y: u32) -> u32 {
        modulus.subtract(y, x)
    }

    // By inclusion and exclusion.
    fn four(modulus: Modulus, x: Four) -> Four {
        let whole = modulus.add(x.both, x.neither);
        let parts = modulus.add(x.first, x.second);
        Four {
            neither: x.neither,
            first: modulus.subtract(x.first, x.neither),
            second: modulus.subtract(x.second, x.neither),
            both: modulus.subtract(whole, parts),
        }
    }
}

impl Transform for Walsh {
    ghost step = { walsh };

    ghost keeps = { walsh_keeps };

    fn lower(modulus: Modulus, x: u32, y: u32) -> u32 {
        modulus.add(x, y)
    }

    fn upper(modulus: Modulus, x: u32, y: u32) -> u32 {
        modulus.subtract(x, y)
    }

    fn four(modulus: Modulus, x: Four) -> Four {
        let neither = modulus.add(x.neither, x.first);
        let first = modulus.subtract(x.neither, x.first);
        let second = modulus.add(x.second, x.both);
        let both = modulus.subtract(x.second, x.both);
        Four {
            neither: modulus.add(neither, second),
            first: modulus.add(first, both),
            second: modulus.subtract(neither, second),
            both: modulus.subtract(first, both),
        }
    }
}

// The first two controls, in the four entries from a place on.
fn cross_four<T: Transform>(modulus: Modulus, start: usize, table: &mut [u32])
    requires { CanCrossFour modulus.value start table.old }
    ensures { table.new ≡ crossed_four (T.step.lower modulus.value) (T.step.upper modulus.value) start table.old }
{
    let first = start + 1;
    let second = start + 2;
    let both = start + 3;
    let x = Four {
        neither: table[start],
        first: table[first],
        second: table[second],
        both: table[both],
    };
    let y = T::four(modulus, x);
    table[start] = y.neither;
    table[first] = y.first;
    table[second] = y.second;
    table[both] = y.both;
}

// The first two controls of a table. Their blocks are too short for a loop of their own.
fn first_two<T: Transform>(n: u32, modulus: Modulus, table: &mut [u32])
    requires ready { Ready n modulus table.old }
    requires lt_n { 1 < n }
    ensures { Applying modulus.value T.step n table.old 2 table.new }
{
    // by number: of what is written through `chunks_exact_mut` a proof learns nothing
    for block in 0..checks::power(n - 2) {
        cross_four::<T>(modulus, 4 * block, table);
    }
}

// One control in a block: the entries of sets without it, and behind them those of the same sets with it.
fn cross<T: Transform>(modulus: Modulus, half: usize, block: &mut [u32])
    requires { Entries (half + half) modulus.value block.old }
    ensures { block.new ≡ crossed (T.step.lower modulus.value) (T.step.upper modulus.value) half block.old }
{
    // in one slice: behind `split_at_mut` each block, most of which are short, pays for a test whether its halves overlap
    for t in 0..half {
        let with = half + t;
        let x = block[t];
        let y = block[with];
        block[t] = T::lower(modulus, x, y);
        block[with] = T::upper(modulus, x, y);
    }
}

// Control i in a table of n controls.
fn pass<T: Transform>(n: u32, modulus: Modulus, i: u32, table: &mut [u32])
    requires ready { Ready n modulus table.old }
    requires i_lt_n { i < n }
    ensures { table.new ≡ tabulate (2 ^ n) (pass (T.step.lower modulus.value) (T.step.upper modulus.value) i (at table.old)) }
{
    let half = checks::power(i);
    let width = half + half;
    for block in 0..checks::power(n - i - 1) {
        let start = block * width;
        let end = start + width;
        cross::<T>(modulus, half, &mut table[start..end]);
    }
}

// The controls of a table from one on.
fn remaining<T: Transform>(n: u32, modulus: Modulus, from: u32, table: &mut [u32])
    requires ready { Ready n modulus table.old }
    requires from_le_n { from ≤ n }
    ensures { (xs : List ℕ) → Applying modulus.value T.step n xs from table.old → Transformed modulus.value T.step n xs table.new }
{
    for i in from..n {
        pass::<T>(n, modulus, i, table);
    }
}

// All controls of a table.
pub fn apply<T: Transform>(n: u32, modulus: Modulus, table: &mut [u32])
    requires { Ready n modulus table.old }
    ensures { Transformed modulus.value T.step n table.old table.new }
{
    if n < 2 {
        remaining::<T>(n, modulus, 0, table);
    } else {
        first_two::<T>(n, modulus, table);
        remaining::<T>(n, modulus, 2, table);
    }
}

// The residue that times 2^n is 1, under an odd modulus. That of 2 is m / 2 + 1.
pub fn halved(n: u32, modulus: Modulus) -> u32
    requires { modulus.value % 2 ≡ 1 }
    ensures { Halves n modulus.value result }
{
    let half = modulus.value() / 2 + 1;
    let mut r: u32 = 1;
    for _i in 0..n {
        r = modulus.multiply(r, half);
    }
    r
}

// Two tables transformed where they stand, and the first multiplied by the other entry by entry and transformed back. `other` is
// overwritten.
pub fn convolve_in_place<There: Transform, Back: Transform>(
    n: u32,
    modulus: Modulus,
    table: &mut [u32],
    other: &mut [u32],
)
    requires ready { Ready n modulus table.old }
    requires ready_2 { Ready n modulus other.old }
    ensures { Transformed modulus.value Back.step n (products n modulus.value There.step table.old other.old) table.new }
{
    apply::<There>(n, modulus, table);
    apply::<There>(n, modulus, other);
    pointwise::multiply(n, modulus, other, table);
    apply::<Back>(n, modulus, table);
}

// The same of two tables that stay as they are, in a result and in `other`, which are overwritten.
pub fn convolve<There: Transform, Back: Transform>(
    n: u32,
    modulus: Modulus,
    a: &[u32],
    b: &[u32],
    res: &mut [u32],
    other: &mut [u32],
)
    requires ready { Ready n modulus a.now }
    requires ready_2 { Ready n modulus b.now }
    requires a_len { length a.now ≡ length res.old }
    requires b_len { length b.now ≡ length other.old }
    ensures { Transformed modulus.value Back.step n (products n modulus.value There.step a.now b.now) res.new }
{
    pointwise::copy(a, res);
    pointwise::copy(b, other);
    convolve_in_place::<There, Back>(n, modulus, res, other);
}
