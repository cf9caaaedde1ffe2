// Numbers in a table file: groups of seven bits, lowest group first, one to a byte; the top bit is 1 when another group
// follows. Only the shortest form of a value below 2^32 is taken.
#![tactic(auto)]

ghost use Rattle.std.specs.Prelude.{◌≡◌, ◌+◌, ◌*◌, ◌^◌, ◌<◌, ◌≤◌, length, drop};
ghost use Rattle.std.proofs.lemmas.List.Edits.{sets};
ghost use Rattle.definitions.specs.Groups.{groups, read_number};
ghost use Rattle.number_groups.specs.NumberAnswers.{ByteIs, IsGroup, ReadsAt, ReadsBehind, ending_in, fifth_group, Accepts, ReadsAgain, cut_to32};

use refusals::Refusal;

// A number that stands in a file, and the place behind it.
#[derive(Clone, Copy)]
pub struct Numeral {
    pub value: u32,
    pub next: usize,
}

// The byte at a place inside the bytes.
fn byte_at(bytes: &[u8], at: usize) -> u64
    requires { at < length bytes.now }
    ensures { ByteIs bytes.now at result }
{
    u64::from(bytes[at])
}

// The number that stands at a place. Whether the bytes end is asked before each byte: a `Result` for each is slower.
pub fn read_number(bytes: &[u8], at: usize) -> Result<Numeral, Refusal>
    ensures { ReadsAt bytes.now at result }
{
    if bytes.len() <= at {
        return Err(Refusal::Group);
    }
    let first = byte_at(bytes, at);
    let next = at + 1;
    if first < 128 {
        return Ok(Numeral {
            value: first as u32,
            next,
        });
    }
    read_groups(bytes, next, first - 128)
}

// The number whose lowest group was read, and whose other groups stand at a place. They are written out, for a loop is slower.
fn read_groups(bytes: &[u8], at: usize, lowest: u64) -> Result<Numeral, Refusal>
    requires { lowest < 128 }
    ensures { ReadsBehind lowest 128 bytes.now at result }
{
    if bytes.len() <= at {
        return Err(Refusal::Group);
    }
    let second = byte_at(bytes, at);
    let third_at = at + 1;
    if second < 128 {
        return last_group(lowest + 128 * second, second, third_at);
    }
    let two = lowest + 128 * (second - 128);
    if bytes.len() <= third_at {
        return Err(Refusal::Group);
    }
    let third = byte_at(bytes, third_at);
    let fourth_at = third_at + 1;
    if third < 128 {
        return last_group(two + 16384 * third, third, fourth_at);
    }
    let three = two + 16384 * (third - 128);
    if bytes.len() <= fourth_at {
        return Err(Refusal::Group);
    }
    let fourth = byte_at(bytes, fourth_at);
    let fifth_at = fourth_at + 1;
    if fourth < 128 {
        return last_group(three + 2097152 * fourth, fourth, fifth_at);
    }
    let four = three + 2097152 * (fourth - 128);
    if bytes.len() <= fifth_at {
        return Err(Refusal::Group);
    }
    fifth_group(four, byte_at(bytes, fifth_at), fifth_at + 1)
}

// A number by its last group, which is not 0, for then the form would not be the shortest.
fn last_group(whole: u64, group: u64, next: usize) -> Result<Numeral, Refusal>
    requires { whole < 2 ^ 32 }
    ensures { result ≡ ending_in whole group next }
{
    if group == 0 {
        return Err(Refusal::Group);
    }
    Ok(Numeral {
        value: whole as u32,
        next,
    })
}

// A number with a fifth group, which is the last one and has four bits: values stay below 2^32.
fn fifth_group(low: u64, group: u64, next: usize) -> Result<Numeral, Refusal>
    requires { low < 268435456 }
    ensures { result ≡ fifth_group low group next }
{
    if 15 < group {
        return Err(Refusal::Group);
    }
    last_group(low + 268435456 * group, group, next)
}

// A byte of a number, and the place behind it. (`read_groups` does without, since it would be slower.)
#[derive(Clone, Copy)]
struct Group {
    byte: u64,
    next: usize,
}

fn group_at(bytes: &[u8], at: usize) -> Group
    requires { at < length bytes.now }
    ensures { IsGroup bytes.now at result }
{
    Group {
        byte: u64::from(bytes[at]),
        next: at + 1,
    }
}

// The number at a place where one stands, as was found before: nothing is tested again.
pub fn number_again(bytes: &[u8], at: usize) -> Numeral
    requires { Accepts (read_number (drop at bytes.now)) }
    ensures { ReadsAgain (read_number (drop at bytes.now)) bytes.now result }
{
    let first = group_at(bytes, at);
    if first.byte < 128 {
        return cut_to_32(first.byte, first.next);
    }
    let one = first.byte - 128;
    let second = group_at(bytes, first.next);
    if second.byte < 128 {
        return cut_to_32(one + 128 * second.byte, second.next);
    }
    let two = one + 128 * (second.byte - 128);
    let third = group_at(bytes, second.next);
    if third.byte < 128 {
        return cut_to_32(two + 16384 * third.byte, third.next);
    }
    let three = two + 16384 * (third.byte - 128);
    let fourth = group_at(bytes, third.next);
    if fourth.byte < 128 {
        return cut_to_32(three + 2097152 * fourth.byte, fourth.next);
    }
    let four = three + 2097152 * (fourth.byte - 128);
    let fifth = group_at(bytes, fourth.next);
    cut_to_32(four + 268435456 * fifth.byte, fifth.next)
}

// A value and the place behind it. A number that stands there has no more than 32 bits, so nothing is cut off.
fn cut_to_32(whole: u64, next: usize) -> Numeral
    ensures { result ≡ cut_to32 whole next }
{
    Numeral {
        value: (whole % 4294967296) as u32,
        next,
    }
}

// How many groups a value has.
#[tactic(auto, using(crate::proofs::GroupWrites::lengths))]
pub fn number_length(value: u32) -> u32
    ensures { (result ≡ length (groups value)) × (result ≤ 5) }
{
    if value < 128 {
        1
    } else if value < 16384 {
        2
    } else if value < 2097152 {
        3
    } else if value < 268435456 {
        4
    } else {
        5
    }
}

// Writes a value at a place, and answers the place behind it.
#[tactic(auto, using(crate::proofs::GroupWrites::writing))]
pub fn write_number(value: u32, at: usize, buffer: &mut [u8]) -> usize
    requires { at + length (groups value) ≤ length buffer.old }
    ensures value { result ≡ at + length (groups value) }
    ensures buffer_after { buffer.new ≡ sets buffer.old at (groups value) }
{
    let mut rest = value;
    let mut place = at;
    while 127 < rest {
        buffer[place] = (128 + rest % 128) as u8;
        rest /= 128;
        place += 1;
    }
    buffer[place] = rest as u8;
    place + 1
}
