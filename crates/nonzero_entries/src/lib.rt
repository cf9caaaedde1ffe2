// The next entry of a table that is not 0.
#![tactic(auto, using(crate::proofs::Skipping::skipping))]

ghost use Rattle.std.specs.Prelude.{◌≡◌, ◌+◌, ◌≤◌, length};
ghost use Rattle.nonzero_entries.specs.Entries.{ZerosAt, Skipped, NextEntry};

// Eight entries joined, bit by bit: 0 only if all of them are 0.
fn eight_joined(table: &[u32], from: usize) -> u32
    requires { from + 8 ≤ length table.now }
    ensures { result ≡ 0 → ZerosAt table.now from 8 }
{
    let low = table[from] | table[from + 1] | table[from + 2] | table[from + 3];
    let high = table[from + 4] | table[from + 5] | table[from + 6] | table[from + 7];
    low | high
}

// Skips entries that are 0, eight at a time. Not by `chunks_exact` or `step_by`: what is asked is the place where the loop stops.
fn skip_eights(table: &[u32], from: usize) -> usize
    requires { from ≤ length table.now }
    ensures { Skipped table.now from result }
{
    let mut code = from;
    while 8 <= table.len() - code {
        if eight_joined(table, code) != 0 {
            return code;
        }
        code += 8;
    }
    code
}

// The code of the first entry from a place on that is not 0, and the table's length if there is none.
pub fn next_entry(table: &[u32], from: usize) -> usize
    requires { from ≤ length table.now }
    ensures { NextEntry table.now from result }
{
    let start = skip_eights(table, from);
    for code in start..table.len() {
        if table[code] != 0 {
            return code;
        }
    }
    table.len()
}
