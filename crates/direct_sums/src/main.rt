// Larger tables than can be worked by hand: each call's result next to the sum over pairs of sets, or over partitions, added
// up directly. Each line of standard input is a comparison:
//
//     name|call|n|m|first table|second table or row|length of the result|length of the pad|what it is compared with
//
// A table is random: its length, the most controls of a set with an entry, a seed and the first entry. Seed 0 makes every
// entry m - 1.
// Printed is how many entries differ, the number that the call returned and what it left in its pad. Results and pads are
// lent full of the largest number.
#![tactic(auto)]

mod compare;
mod report;

use lines::{Case, value_at};
use std::io;

// What a result and a pad hold when they are lent.
const LENT: u32 = u32::MAX;

// The random table that a text describes.
fn random<'a, 'b>(text: &'b [u8], m: u32, room: &'a mut [u32]) -> &'a mut [u32] {
    let first = value_at(text, 3);
    plain_sums::fill_from(room, first, value_at(text, 1), value_at(text, 2), m);
    lines::first(room, lines::length_in(lines::part(text, b' ', 0)))
}

// Makes the call that a case names, and reports its outcome; false if there is no such call. What is lent is enough for 12
// controls.
fn case(rt: &impl Print, case: Case) -> io::Result<bool> {
    let mut first = [0; 4096];
    let mut second = [0; 4096];
    let mut res = [LENT; 4096];
    let mut pad = [LENT; 114691];
    let m = case.modulus();
    let a = random(case.first_list(), m, &mut first);
    let b = random(case.second_list(), m, &mut second);
    let outcome = calls::run(case, a, b, &mut res, &mut pad);
    report::comparison(rt, case, &outcome)?;
    Ok(outcome.answer.is_ok())
}

fn main(rt: HostRuntime) -> io::Result<()> {
    lines::each_case(&rt, |line| case(&rt, line))
}
