// A line of output for each case, in parts.
use calls::{Answer, Outcome};
use lines::{Case, Entries};
use std::io;

// A row in round brackets, a table in square ones; what a case without a call was lent, in square ones too.
fn list(rt: &impl Print, outcome: &Outcome) -> io::Result<()> {
    let entries = Entries(outcome.res);
    match outcome.answer {
        Ok(Answer { call, .. }) if call.gives_row() => print!(rt; "({entries})"),
        _ => print!(rt; "[{entries}]"),
    }
}

// The name of a case, the number that its call returned, what the result then holds, and the ceiling, which only the subset
// product has; and what became of the pad that was lent, if one was.
pub fn outcome(rt: &impl Print, case: Case, outcome: &Outcome) -> io::Result<()> {
    rt.write_all(case.name())?;
    print!(rt; ": {} ", outcome.number())?;
    list(rt, outcome)?;
    if let Some(ceiling) = outcome.ceiling() {
        print!(rt; ", ceiling {ceiling}")?;
    }
    if !outcome.pad.is_empty() {
        lines::pad(rt, outcome.pad, crate::LENT)?;
    }
    print!(rt; "\n")
}
