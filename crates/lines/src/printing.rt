// Parts of a line of output, for the programs that run the calls. They are written to the runtime's standard output, and
// nothing is allocated.
ghost use Rattle.std.specs.Prelude.{◌≤◌, length};

use std::{fmt, io};

// The numbers of a table or a row, with commas between.
#[derive(Clone, Copy, Debug)]
pub struct Entries<'a>(pub &'a [u32]);

impl fmt::Display for Entries<'_> {
    fn fmt<W: fmt::Write>(&self, f: &mut fmt::Formatter<W>) -> fmt::Result {
        for (i, x) in self.0.iter().enumerate() {
            if 0 < i {
                f.write_str(",")?;
            }
            write!(f, "{x}")?;
        }
        Ok(())
    }
}

// How many numbers at the front of a list are x.
fn run_length(list: &[u32], x: u32) -> usize
    ensures { result ≤ length list.now }
{
    list.iter().position(|y| *y != x).unwrap_or(list.len())
}

// What a call left in a pad that was lent full of one number: zeros, then that number again.
pub fn pad(rt: &impl Print, pad: &[u32], lent: u32) -> io::Result<()> {
    let zeros = run_length(pad, 0);
    let kept = run_length(&pad[zeros..], lent);
    print!(rt; ", pad {zeros} zeros, {kept} as lent")
}
