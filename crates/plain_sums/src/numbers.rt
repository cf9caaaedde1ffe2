// Arithmetic modulo m and access to tables.

// The ceiling of a table of zeros.
const CEILING_OF_ZEROS: u32 = 255;

// What stands at i; 0 past the end.
pub fn entry(a: &[u32], i: usize) -> u32 {
    a.get(i).copied().unwrap_or(0)
}

pub fn set_entry(a: &mut [u32], i: usize, x: u32) {
    if let Some(old) = a.get_mut(i) {
        *old = x;
    }
}

fn product(x: u32, y: u32) -> u64 {
    u64::from(x) * u64::from(y)
}

// The remainder of x by m; 0 for m = 0.
fn remainder(x: u64, m: u32) -> u32 {
    if m == 0 { 0 } else { (x % u64::from(m)) as u32 }
}

pub fn times(x: u32, y: u32, m: u32) -> u32 {
    remainder(product(x, y), m)
}

pub fn plus(x: u32, y: u32, m: u32) -> u32 {
    remainder(u64::from(x) + u64::from(y), m)
}

// m - 1; 0 for m = 0.
pub fn largest_residue(m: u32) -> u32 {
    m.saturating_sub(1)
}

// The largest size of a set with a nonzero entry; 255 if there is none.
pub fn ceiling(a: &[u32]) -> u32 {
    a.iter()
        .enumerate()
        .filter(|(_, x)| **x != 0)
        .map(|(s, _)| s.count_ones())
        .max()
        .unwrap_or(CEILING_OF_ZEROS)
}

// How many entries of a differ from those of b.
pub fn differing(a: &[u32], b: &[u32]) -> usize {
    a.iter()
        .enumerate()
        .filter(|(i, x)| **x != entry(b, *i))
        .count()
}
