// The cases of a program, a line of standard input for each.
use crate::{Case, fill, marks};
use std::io;

// Shows each case in turn, up to one that names no call, for which `show` answers false. A line that does not end is none.
pub fn each_case<R: Print + Input, F: Fn(Case) -> io::Result<bool>>(
    rt: &R,
    show: F,
) -> io::Result<()>
    requires { F.IsAlwaysCallable show }
{
    let mut input = [0; 16384];
    let length = fill(&mut rt.reader(), &mut input)?;
    let input = &input[..length];
    for line in input.split(|b| *b == b'\n').take(marks(input, b'\n')) {
        if !show(Case { line })? {
            return print!(rt; "no such call\n");
        }
    }
    Ok(())
}
