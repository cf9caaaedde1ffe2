// The tests of the calls on boards, with 02's own words of refusal.
#![tactic(auto)]

ghost use Rattle.std.specs.Prelude.{◌≡◌, ◌≤◌};
ghost use Rattle.definitions.specs.Limits.{most_controls};
ghost use Rattle.definitions.specs.Refusals.{empty_word, code_word, weight_word};
ghost use Rattle.definitions.specs.Boards.{board, fresh_number, change_number};
ghost use Rattle.refusals.specs.Words.{word_of};
ghost use Rattle.checks.specs.Answers.{IsChecked};

use checks::power;
use refusal_words::{test, test_entries, test_length, test_panel};
use refusals::Refusal;
use residues::Modulus;

fn test_empty(set: u32) -> Result<(), Refusal>
    ensures { word_of result ≡ empty_word set }
{
    test(set != 0, Refusal::Empty)
}

fn test_code(n: u32, set: u32) -> Result<(), Refusal>
    requires { n ≤ most_controls }
    ensures { word_of result ≡ code_word n set }
{
    test((set as usize) < power(n), Refusal::Code)
}

fn test_weight(m: u32, weight: u32) -> Result<(), Refusal>
    ensures { word_of result ≡ weight_word m weight }
{
    test(weight < m, Refusal::Entry)
}

// A fresh board: three tables to make it in.
#[tactic(auto, unfolding(definitions::specs::Boards::fresh_number))]
pub fn check_fresh(n: u32, m: u32, a: &[u32], e: &[u32], i: &[u32]) -> Result<Modulus, Refusal>
    ensures { IsChecked m (fresh_number n m (board a.now e.now i.now)) result }
{
    test_panel(n)?;
    let modulus = Modulus::new(m)?;
    let long = power(n);
    test_length(long, a.len())?;
    test_length(long, e.len())?;
    test_length(long, i.len())?;
    Ok(modulus)
}

// A change: the tests of a fresh board, which are of the lengths, then the set's own words before those of the entries.
#[tactic(auto, using(crate::proofs::Behind::controls, crate::proofs::Behind::behind_fresh))]
pub fn check_change(
    n: u32,
    m: u32,
    set: u32,
    weight: u32,
    a: &[u32],
    e: &[u32],
    i: &[u32],
) -> Result<Modulus, Refusal>
    ensures { IsChecked m (change_number n m set weight (board a.now e.now i.now)) result }
{
    let modulus = check_fresh(n, m, a, e, i)?;
    test_empty(set)?;
    test_code(n, set)?;
    test_entries(m, a)?;
    test_entries(m, e)?;
    test_entries(m, i)?;
    test_weight(m, weight)?;
    Ok(modulus)
}
