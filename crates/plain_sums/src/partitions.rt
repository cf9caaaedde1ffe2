// Sums over all partitions of a set, enumerated one by one: the block that holds the lowest control is chosen first.
use crate::numbers::{entry, plus, set_entry, times};

// Whether t is a subset of s that holds its lowest control.
fn is_block(t: usize, s: usize) -> bool {
    t & s == t && t.trailing_zeros() == s.trailing_zeros()
}

// The sum over the partitions of what is left, each product also multiplied by what was taken from the blocks before.
// Each block takes a number off the front of the row.
fn over_rest(a: &[u32], f: &[u32], m: u32, left: usize, taken: u32) -> u32 {
    if left == 0 {
        return times(taken, entry(f, 0), m);
    }
    let Some((_, later)) = f.split_first() else {
        return 0;
    };
    let mut sum = 0;
    for rest in 0..left {
        let block = left - rest;
        if is_block(block, left) {
            let products = over_rest(a, later, m, rest, times(taken, entry(a, block), m));
            sum = plus(sum, products, m);
        }
    }
    sum
}

pub fn composition_table(a: &[u32], f: &[u32], m: u32, res: &mut [u32]) {
    for (s, x) in res.iter_mut().enumerate() {
        *x = over_rest(a, f, m, s, 1);
    }
}

pub fn exponential_table(a: &[u32], m: u32, res: &mut [u32]) {
    composition_table(a, &[1; 17], m, res);
}

// The sum over all sets l and all partitions of the other controls into i blocks, of a[l] times the product of b over the blocks.
fn projection_entry(i: usize, a: &[u32], b: &[u32], m: u32) -> u32 {
    let mut row = [0; 17];
    set_entry(&mut row, i, 1);
    let mut sum = 0;
    // From the last set on, so that the others count up.
    for (others, x) in a.iter().rev().enumerate() {
        sum = plus(sum, over_rest(b, &row, m, others, *x), m);
    }
    sum
}

pub fn projection_row(a: &[u32], b: &[u32], m: u32, res: &mut [u32]) {
    for (i, x) in res.iter_mut().enumerate() {
        *x = projection_entry(i, a, b, m);
    }
}
