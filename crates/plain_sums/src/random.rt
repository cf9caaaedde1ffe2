// Tables that look random.
use crate::numbers::{largest_residue, set_entry, times};

// The entry x of s, or 0 if s has more controls than that.
fn kept(x: u32, s: usize, most: u32) -> u32 {
    if most < s.count_ones() { 0 } else { x }
}

// The generator's states are powers modulo 2147483647, which would make an entry a product over the controls of its set; the
// xor breaks that up, and the factor after it makes residues of every size. No state but 0 comes to 0, which makes the
// largest residue.
fn residue(state: u32, m: u32) -> u32 {
    if state == 0 {
        largest_residue(m)
    } else {
        times(state ^ 1431655765, 48271, m)
    }
}

// Fills a slice with residues that look random, or for the seed 0 with the largest one; and 0 at sets with more controls than
// that.
fn fill(a: &mut [u32], most: u32, seed: u32, m: u32) {
    let mut state = seed;
    for (s, x) in a.iter_mut().enumerate() {
        state = times(state, 48271, 2147483647);
        *x = kept(residue(state, m), s, most);
    }
}

// With this first entry.
pub fn fill_from(a: &mut [u32], first: u32, most: u32, seed: u32, m: u32) {
    fill(a, most, seed, m);
    set_entry(a, 0, first);
}
