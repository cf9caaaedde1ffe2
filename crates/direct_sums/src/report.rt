// One line for each comparison, in parts.
use crate::compare::directly;
use calls::Outcome;
use lines::Case;
use std::io;

fn subject(rt: &impl Print, case: Case) -> io::Result<()> {
    let n = case.controls();
    let m = case.modulus();
    rt.write_all(case.name())?;
    print!(rt; ", {n} controls, modulus {m}: ")
}

fn entries(rt: &impl Print, case: Case, outcome: &Outcome) -> io::Result<()> {
    let entries = outcome.res.len();
    let differing = directly(case, outcome);
    print!(rt; "{entries} entries, {differing} differ")
}

// Only the subset product returns one, that of its result.
fn ceiling(rt: &impl Print, outcome: &Outcome) -> io::Result<()> {
    if let Some(ceiling) = outcome.ceiling() {
        let direct = plain_sums::ceiling(outcome.res);
        print!(rt; ", ceiling {ceiling} (directly {direct})")?;
    }
    Ok(())
}

pub fn comparison(rt: &impl Print, case: Case, outcome: &Outcome) -> io::Result<()> {
    subject(rt, case)?;
    entries(rt, case, outcome)?;
    ceiling(rt, outcome)?;
    print!(rt; ", number {}", outcome.number())?;
    lines::pad(rt, outcome.pad, crate::LENT)?;
    print!(rt; "\n")
}
