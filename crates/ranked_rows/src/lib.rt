// Where rows hold what, and one step of the ranked recursion on them: step 1 (down), step 2 (back) and step 3 (one entry) of 001
// section 1. Row h has 2n + 2 numbers. On the way down the two factors lie side by side, the left one's rank k at 2 (|h| - k) and the
// right one's next to it; from one entry up, the row holds the result's rank |h| + i at 2n - i. Since ranks are counted from |h|, a row
// starts with what its entry is made of and ends with what it becomes.
#![tactic(auto)]

ghost use Rattle.std.specs.Prelude.{◌≡◌, ◌+◌, ◌-◌, ◌*◌, ◌^◌, ◌<◌, ◌≤◌, min};
ghost use Rattle.definitions.specs.Sets.{size};
ghost use Rattle.residues.specs.Moduli.{Residue};
ghost use Rattle.ranked_theory.specs.Rows.{Added, Subtracted, RowStep, RowReady, RowsStep, RowsReady, back_from, back_count, coefficient, RanksWithin, WholeRow, Multiplied};
ghost use Rattle.ranked_theory.specs.Layout.{width, rows_length, place, result_place};

pub use pads::power_of_two;
use ranked_runs::{Minus, Plus, run, store_pair};
use residues::{Accumulator, Modulus};
use sets::{SetCode, SetSize};

pub fn row_width(n: usize) -> usize
    requires { n ≤ 16 }
    ensures { result ≡ width n }
{
    2 * n + 2
}

// How many numbers the rows of a product have.
#[tactic(auto, unfolding(ranked_theory::specs::Layout::rows_length))]
pub fn rows_length(n: usize) -> usize
    requires { n ≤ 16 }
    ensures { result ≡ rows_length n }
{
    power_of_two(n) * row_width(n)
}

// Where the rows hold the entry of set h in the factor at that side, 0 the left one and 1 the right one.
#[tactic(auto, unfolding(ranked_theory::specs::Layout::place))]
pub fn place(n: usize, side: usize, h: SetCode) -> usize
    requires { (n ≤ 16) × (side ≤ 1) × (h.0 < 2 ^ n) }
    ensures { result ≡ place n side h.0 }
{
    h.0 * row_width(n) + side
}

// Where the rows hold the entry of set h in the product.
#[tactic(auto, unfolding(ranked_theory::specs::Layout::result_place))]
pub fn result_place(n: usize, h: SetCode) -> usize
    requires { (n ≤ 16) × (h.0 < 2 ^ n) }
    ensures { result ≡ result_place n h.0 }
{
    h.0 * row_width(n) + 2 * n
}

// Step 1 for one row u of the lower half: the ranks from |h| - |h0| to |h|, the highest first. The row above has one control more,
// so each rank stands two places on there; it has nothing at the lowest rank yet, so that is stored.
fn add_row(modulus: Modulus, d: SetSize, w: usize, mid: usize, u: SetCode, rows: &mut [u32])
    requires row_ready { RowReady modulus.value 2 0 (2 * d.0) w mid u.0 rows.old }
    requires d_bound { 2 * d.0 + 4 ≤ w }
    ensures { RowStep (Added modulus.value d.0) 2 w mid u.0 rows.old rows.new }
{
    let low = u.0 * w;
    let high = mid + low + 2;
    let more = 2 * d.0;
    run::<Plus>(modulus, low, high, more, rows);
    store_pair(low + more, high + more, rows);
}

// Step 1: each row of the upper half takes the row of the lower half.
pub fn add_lower(modulus: Modulus, p: usize, d: SetSize, w: usize, rows: &mut [u32])
    requires rows_ready { RowsReady modulus.value 2 (λ u. 0) (λ u. 2 * d.0) w p rows.old }
    requires d_bound { 2 * d.0 + 4 ≤ w }
    ensures { RowsStep (λ u. Added modulus.value d.0) 2 w (2 ^ p * w) (2 ^ p) rows.old rows.new }
{
    let half = power_of_two(p);
    let mid = half * w;
    for u in 0..half {
        add_row(modulus, d, w, mid, SetCode(u), rows);
    }
}

// Step 2 for one row u of the lower half, whose set has the size |h|: from |h| to |h| + e, and none past 2 |h|. The lowest of these ranks
// stands last but one in its row and last in the row above.
fn subtract_row(
    modulus: Modulus,
    size: SetSize,
    e: SetSize,
    w: usize,
    mid: usize,
    u: SetCode,
    rows: &mut [u32],
)
    requires { RowReady modulus.value 1 (back_from w e.0 size.0) (back_count e.0 size.0) w mid u.0 rows.old }
    ensures { RowStep (Subtracted modulus.value w e.0 size.0) 1 w mid u.0 rows.old rows.new }
{
    let more = e.min(size);
    let first = u.0 * w + (w - 2 - more.0);
    run::<Minus>(modulus, first, mid + first + 1, more.0 + 1, rows);
}

// Step 2: each row of the upper half loses the row of the lower half. The sizes |u| are counted on from row to row, which is cheaper
// than to look them up.
pub fn subtract_lower(
    modulus: Modulus,
    p: usize,
    d: SetSize,
    e: SetSize,
    w: usize,
    rows: &mut [u32],
)
    requires rows_ready { RowsReady modulus.value 1 (λ u. back_from w e.0 (size u + d.0)) (λ u. back_count e.0 (size u + d.0)) w p rows.old }
    requires d_bound { d.0 ≤ 16 }
    ensures { RowsStep (λ u. Subtracted modulus.value w e.0 (size u + d.0)) 1 w (2 ^ p * w) (2 ^ p) rows.old rows.new }
{
    let half = power_of_two(p);
    let mid = half * w;
    let mut low = SetSize(0);
    for u in 0..half {
        subtract_row(modulus, SetSize(low.0 + d.0), e, w, mid, SetCode(u), rows);
        low = SetCode(u).next_size(low);
    }
}

// Rank d + e of the product of a row's factors, neither of which goes above d. Two products are added at a time, which is faster; a
// `step_by(2)` would ask twice a turn whether to go on, and j would not be there for the last product.
fn product_rank(modulus: Modulus, d: SetSize, e: SetSize, row: &[u32]) -> u32
    requires e_le_d { e.0 ≤ d.0 }
    requires ranks_within { RanksWithin (d.0 - e.0) row.now }
    ensures { Residue modulus.value (coefficient (d.0 - e.0) row.now) result }
{
    let top = d.0 - e.0;
    let mut total = Accumulator::start();
    let mut j = 0;
    while j < top {
        let left = 2 * (top - j);
        let right = 2 * j + 1;
        total = total
            .add_product(row[left], row[right])
            .add_product(row[left - 2], row[right + 2]);
        j += 2;
    }
    if j == top {
        total.add_product(row[0], row[2 * j + 1]).residue(modulus)
    } else {
        total.residue(modulus)
    }
}

// Step 3: the ranks from |h0| = d to 2d, and none past n. Each is stored from the row's end, past the ranks that later ones take.
// The rank below d counts for nothing, but step 2 goes on to take it. The loop is not over `0..=more.0`, which would ask twice a turn
// whether to go on.
pub fn multiply_row(n: usize, modulus: Modulus, d: SetSize, row: &mut [u32])
    requires { WholeRow n d.0 row.old }
    ensures { Multiplied modulus.value n d.0 row.old row.new }
{
    let more = SetSize(n - d.0).min(d);
    let last = 2 * n;
    for e in 0..more.0 + 1 {
        row[last - e] = product_rank(modulus, d, SetSize(e), row);
    }
    row[last + 1] = 0;
}
