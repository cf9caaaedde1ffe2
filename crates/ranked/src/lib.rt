// The ranked subset product of 001 section 1: the recursion on rows (see `ranked_rows`), laying a factor out, reading the result off,
// and the product made of them. Laying out and reading off ask `ranked_rows` for the places, so that nothing above counts on the layout.
#![tactic(auto)]

ghost use Rattle.std.specs.Prelude.{◌≡◌, ◌^◌, ◌≤◌, length};
ghost use Rattle.definitions.specs.Products.{subset_table};
ghost use Rattle.ranked_theory.specs.Recursion.{Ready, Worked, Room, LaidOut, LaidBoth, BothReady, RowsMultiplied, ReadOff, ProductOfBoth, TablesReady};

use ranked_rows::{add_lower, multiply_row, power_of_two, row_width, subtract_lower};
pub use ranked_rows::{place, result_place, rows_length};
use residues::Modulus;
use sets::{SetCode, SetSize};

// The recursion on 2^q rows whose codes share d = |h0| controls above the low q.
fn ranked_product(n: usize, modulus: Modulus, q: usize, d: SetSize, rows: &mut [u32])
    requires { Ready modulus.value n q d.0 rows.old }
    ensures { Worked modulus.value n q d.0 rows.old rows.new }
{
    if q == 0 {
        multiply_row(n, modulus, d, rows);
    } else {
        let p = q - 1;
        let w = row_width(n);
        let mid = power_of_two(p) * w;
        add_lower(modulus, p, d, w, rows);
        ranked_product(n, modulus, p, d, &mut rows[..mid]);
        ranked_product(n, modulus, p, SetSize(d.0 + 1), &mut rows[mid..]);
        subtract_lower(modulus, p, d, SetSize(n - p - d.0), w, rows);
    }
}

// Works the rows in front, in which both factors are laid out: from then on they hold the product.
pub fn multiply_rows(n: usize, modulus: Modulus, rows: &mut [u32])
    requires { BothReady modulus.value n rows.old }
    ensures { RowsMultiplied modulus.value n rows.old rows.new }
{
    let used = rows_length(n);
    ranked_product(n, modulus, n, SetSize(0), &mut rows[..used]);
}

// Lays one factor out in the rows, 0 the left one and 1 the right one. Nothing else in them changes, so that the two may be laid out
// one after the other.
#[tactic(auto, using(ranked_theory::specs::Layout::place_in))]
pub fn lay_out(n: usize, side: usize, a: &[u32], rows: &mut [u32])
    requires room { Room n a.now rows.old }
    requires side_bound { side ≤ 1 }
    ensures { LaidOut n side a.now rows.old rows.new }
{
    for h in 0..a.len() {
        rows[place(n, side, SetCode(h))] = a[h];
    }
}

// Lays both factors out in one pass over the rows, whatever they held; two passes of `lay_out` would be slower.
#[tactic(auto, using(ranked_theory::specs::Layout::place_in))]
pub fn lay_out_both(n: usize, a: &[u32], b: &[u32], rows: &mut [u32])
    requires room { Room n a.now rows.old }
    requires room_2 { Room n b.now rows.old }
    ensures { LaidBoth n a.now b.now rows.new }
{
    for h in 0..a.len() {
        rows[place(n, 0, SetCode(h))] = a[h];
        rows[place(n, 1, SetCode(h))] = b[h];
    }
}

// The product, from the rows into a table.
#[tactic(auto, using(ranked_theory::specs::Layout::result_in_lem))]
fn read_off(n: usize, rows: &[u32], res: &mut [u32])
    requires { Room n res.old rows.now }
    ensures { ReadOff n rows.now res.new }
{
    for h in 0..res.len() {
        res[h] = rows[result_place(n, SetCode(h))];
    }
}

// The subset product of the two factors, which are laid out in the rows.
pub fn multiply_both(n: usize, modulus: Modulus, res: &mut [u32], rows: &mut [u32])
    requires both_ready { BothReady modulus.value n rows.old }
    requires res_len { length res.old ≡ 2 ^ n }
    ensures { ProductOfBoth modulus.value n rows.old res.new }
{
    multiply_rows(n, modulus, rows);
    read_off(n, rows, res);
}

// The subset product of a and b.
pub fn product(n: usize, modulus: Modulus, a: &[u32], b: &[u32], res: &mut [u32], rows: &mut [u32])
    requires { TablesReady modulus.value n a.now b.now res.old rows.old }
    ensures { res.new ≡ subset_table n modulus.value a.now b.now }
{
    lay_out_both(n, a, b, rows);
    multiply_both(n, modulus, res, rows);
}
