// The degree of a table (01: its ceiling).
#![tactic(auto)]

ghost use Rattle.std.specs.Prelude.{◌≡◌, ◌+◌, ◌^◌, ◌≤◌, max, length};
ghost use Rattle.definitions.specs.Limits.{most_controls};
ghost use Rattle.definitions.specs.Products.{degree};
ghost use Rattle.degrees.specs.Parts.{counted, part_degree};

use pads::power_of_two;
use sets::SetSize;

// 02's ceiling of a table of zeros.
const DEGREE_OF_ZEROS: u32 = 255;

// The larger of `largest` and the size of a set, if its entry is not 0.
fn counting(largest: SetSize, entry: u32, size: SetSize) -> SetSize
    ensures { result.0 ≡ max largest.0 (counted entry size.0) }
{
    if entry == 0 {
        largest
    } else {
        SetSize(largest.0.max(size.0))
    }
}

// What `degree_of_part` finds of a part of eight entries, with no call for each: sets of one size go together.
fn degree_of_eight(d: SetSize, largest: SetSize, a: &[u32]) -> SetSize
    requires { (d.0 + 3 ≤ most_controls) × (length a.now ≡ 8) }
    ensures { result.0 ≡ max largest.0 (part_degree 3 d.0 a.now) }
{
    let mut most = counting(largest, a[0], d);
    most = counting(most, a[1] | a[2] | a[4], SetSize(d.0 + 1));
    most = counting(most, a[3] | a[5] | a[6], SetSize(d.0 + 2));
    counting(most, a[7], SetSize(d.0 + 3))
}

// The largest of `largest` and the sizes of the sets with a nonzero entry, in a part of 2^q entries whose codes share d
// controls above the low q. The upper half has the larger sets, so it comes first; a part with small sets only is skipped.
fn degree_of_part(q: usize, d: SetSize, largest: SetSize, a: &[u32]) -> SetSize
    requires { (d.0 + q ≤ most_controls) × (length a.now ≡ 2 ^ q) }
    ensures { result.0 ≡ max largest.0 (part_degree q d.0 a.now) }
{
    if d.0 + q <= largest.0 {
        largest
    } else if q == 0 {
        counting(largest, a[0], d)
    } else if q == 3 {
        degree_of_eight(d, largest, a)
    } else {
        let p = q - 1;
        let mid = power_of_two(p);
        let upper = degree_of_part(p, SetSize(d.0 + 1), largest, &a[mid..]);
        degree_of_part(p, d, upper, &a[..mid])
    }
}

// The degree of a table. A part with no nonzero entry counts for 0, and so does the empty set: if nothing larger is found,
// the empty set's entry tells whether the table is one of zeros.
pub fn degree(n: u32, a: &[u32]) -> u32
    requires { (n ≤ most_controls) × (length a.now ≡ 2 ^ n) }
    ensures { result ≡ degree n a.now }
{
    let largest = degree_of_part(n as usize, SetSize(0), SetSize(0), a);
    if largest.0 == 0 && a[0] == 0 {
        DEGREE_OF_ZEROS
    } else {
        largest.0 as u32
    }
}
