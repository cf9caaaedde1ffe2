// 01's tests, one function each: nothing, or the refusal.
#![tactic(auto)]

ghost use Rattle.std.specs.Prelude.{◌≡◌, if◌then◌else◌, not, ◌≤◌, eqb};
ghost use Rattle.definitions.specs.Limits.{most_controls};
ghost use Rattle.definitions.specs.Sums.{at};
ghost use Rattle.definitions.specs.Refusals.{word_if, panel_word, pad_word, entry_word, start_word, halving_word};
ghost use Rattle.refusals.specs.Words.{word_of};

use refusals::Refusal;

// The most controls that a panel has.
pub const MOST_CONTROLS: u32 = 16;

// Nothing if the fact holds, else the refusal.
pub fn test(holds: bool, refusal: Refusal) -> Result<(), Refusal>
    ensures { result ≡ (if holds then Ok tt else Err refusal) }
{
    if holds { Ok(()) } else { Err(refusal) }
}

pub fn test_panel(n: u32) -> Result<(), Refusal>
    ensures { word_of result ≡ panel_word n }
{
    test(n <= MOST_CONTROLS, Refusal::Panel)
}

pub fn test_length(expected: usize, found: usize) -> Result<(), Refusal>
    ensures { word_of result ≡ word_if (not (eqb found expected)) 3 }
{
    test(found == expected, Refusal::Length)
}

pub fn test_pad(n: u32, found: usize) -> Result<(), Refusal>
    requires { n ≤ most_controls }
    ensures { word_of result ≡ pad_word n found }
{
    test(pads::pad_length(n) <= found, Refusal::Pad)
}

// All entries are looked at, so that the loop has no way out of its middle.
pub fn test_entries(m: u32, a: &[u32]) -> Result<(), Refusal>
    ensures { word_of result ≡ entry_word m a.now }
{
    // a number of 32 bits, as wide as an entry: with a bool the loop is a fifth slower
    let mut large: u32 = 0;
    for x in a {
        if m <= *x {
            large = 1;
        }
    }
    test(large == 0, Refusal::Entry)
}

// The entry at the empty set; 0 if there is none.
fn first_entry(a: &[u32]) -> u32
    ensures { result ≡ at a.now 0 }
{
    a.first().copied().unwrap_or(0)
}

// Whether the first entry is the one that the call takes.
pub fn test_start(first: u32, a: &[u32]) -> Result<(), Refusal>
    ensures { word_of result ≡ start_word first a.now }
{
    test(first_entry(a) == first, Refusal::Start)
}

// 01's word for an even modulus.
pub fn test_halving(m: u32) -> Result<(), Refusal>
    ensures { word_of result ≡ halving_word m }
{
    test(m % 2 != 0, Refusal::Halving)
}
