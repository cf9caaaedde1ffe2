// Sums over all pairs of sets, each at the set that joins them.
use crate::numbers::{plus, set_entry, times};

// The union of disjoint sets.
pub fn disjoint(l: usize, r: usize) -> Option<usize> {
    if l & r == 0 { Some(l | r) } else { None }
}

// The union of disjoint sets, where l holds its lowest control.
fn with_lowest(l: usize, r: usize) -> Option<usize> {
    if l.trailing_zeros() < r.trailing_zeros() {
        disjoint(l, r)
    } else {
        None
    }
}

// Adds x times all of b, each product at the set that is joined with that of its entry, if any.
fn add_row<F: Fn(usize) -> Option<usize>>(join: F, x: u32, b: &[u32], m: u32, res: &mut [u32])
    requires { F.IsAlwaysCallable join }
{
    for (r, y) in b.iter().enumerate() {
        if let Some(s) = join(r)
            && let Some(sum) = res.get_mut(s)
        {
            *sum = plus(*sum, times(x, *y, m), m);
        }
    }
}

// Into a result that starts out as zeros. No pair is joined to more than one set; some to none.
pub fn pair_table<F: Fn(usize, usize) -> Option<usize>>(
    join: F,
    a: &[u32],
    b: &[u32],
    m: u32,
    res: &mut [u32],
)
    requires { F.IsAlwaysCallable join }
{
    for (l, x) in a.iter().enumerate() {
        add_row(|r| join(l, r), *x, b, m, res);
    }
}

// What e must be to be the exponential of a: each entry of a set is the sum over the blocks that hold its lowest control, of
// the block's entry times that of the rest. The empty set has one partition.
pub fn exponential_by_lowest(a: &[u32], e: &[u32], m: u32, res: &mut [u32]) {
    pair_table(with_lowest, a, e, m, res);
    set_entry(res, 0, 1);
}
