// Shows a table file from standard input: n and m, then each nonzero entry with its code and size, or `refused` and the number.
#![tactic(auto)]

use std::io;

fn main(rt: HostRuntime) -> io::Result<()> {
    // 4,096 bytes: the first 2,580 decide what is printed (`shown-start` of table_show's specs/Start), however long the input.
    let mut input = [0u8; 4096];
    let count = lines::fill(&mut rt.reader(), &mut input)?;
    let shown = table_show::show(&input[..count]);
    rt.write_all(shown.as_slice())
}
