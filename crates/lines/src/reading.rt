// The parts of a text between marks, and the numbers in them. Every text reads as something, so that no line stops a program
// but one that it does not want.
ghost use Rattle.std.specs.Prelude.{◌≤◌, length};

// How many of the bytes are the mark.
pub fn marks(text: &[u8], mark: u8) -> usize
    ensures { result ≤ length text.now }
{
    text.iter().filter(|b| **b == mark).count()
}

// Part k of a text, from 0; an empty one where there are fewer.
pub fn part(text: &[u8], mark: u8, k: usize) -> &[u8] {
    text.split(|b| *b == mark).nth(k).unwrap_or(&[])
}

// The number x with one more digit, if that is a digit, and the number still one of 32 bits.
fn with_digit(x: u32, byte: u8) -> Option<u32> {
    x.checked_mul(10)?
        .checked_add(char::from(byte).to_digit(10)?)
}

// The number of 32 bits that a text spells in digits, 0 for no digit at all.
pub(crate) fn number(text: &[u8]) -> Option<u32> {
    text.iter().try_fold(0, |x, byte| with_digit(x, *byte))
}

// What is no number reads as the largest, which is no residue.
pub fn value(text: &[u8]) -> u32 {
    number(text).unwrap_or(u32::MAX)
}

// The same as a length.
pub fn length_in(text: &[u8]) -> usize {
    value(text) as usize
}

// The first numbers of a list; all of them where it is not so long.
pub fn first(list: &mut [u32], count: usize) -> &mut [u32] {
    let count = count.min(list.len());
    &mut list[..count]
}

// How many numbers a text has, with one blank between.
fn words(text: &[u8]) -> usize {
    if text.is_empty() {
        0
    } else {
        marks(text, b' ') + 1
    }
}

// Number k of a text, with one blank between; 0 where there are fewer.
pub fn value_at(text: &[u8], k: usize) -> u32 {
    value(part(text, b' ', k))
}

// Reads numbers into a list, and answers the part that they fill; they are cut off where it is full.
pub fn numbers<'a, 'b>(text: &'b [u8], list: &'a mut [u32]) -> &'a mut [u32] {
    for (k, x) in list.iter_mut().enumerate() {
        *x = value_at(text, k);
    }
    first(list, words(text))
}
