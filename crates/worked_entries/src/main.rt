// Entries worked by hand, slips and edges, and projections and ceilings, run through the calls. Each line of standard input is a
// case:
//
//     name|call|n|m|first table|second table or row|length of the result|length of the pad
//
// A result and a pad are lent full of 9s, so a refused call shows 9s.
#![tactic(auto)]

mod show;

use lines::Case;
use std::io;

// What a result and a pad hold when they are lent.
const LENT: u32 = 9;

// Makes the call that a case names, and shows its outcome; false if there is no such call. The longest list that a call accepts
// here is a row for 16 controls.
fn case(rt: &impl Print, case: Case) -> io::Result<bool> {
    let mut first = [0; 18];
    let mut second = [0; 18];
    let mut res = [LENT; 17];
    let mut pad = [LENT; 82];
    let a = lines::numbers(case.first_list(), &mut first);
    let b = lines::numbers(case.second_list(), &mut second);
    let outcome = calls::run(case, a, b, &mut res, &mut pad);
    show::outcome(rt, case, &outcome)?;
    Ok(outcome.answer.is_ok())
}

fn main(rt: HostRuntime) -> io::Result<()> {
    lines::each_case(&rt, |line| case(&rt, line))
}
