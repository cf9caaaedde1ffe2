// The public call of the projection. It makes 01's tests, works in the part of the pad that it may use, and clears that part once,
// at the end.
#![tactic(auto)]

ghost use Rattle.std.specs.Prelude.{◌≡◌, length};
ghost use Rattle.definitions.specs.Projection.{projection_row};
ghost use Rattle.refusals.specs.Words.{word_of};
ghost use Rattle.definitions.specs.Refusals.{projection_number, after, pad_after};
ghost use Rattle.checks.specs.Answers.{IsChecked};

use checks::power;
use refusal_words::{test_entries, test_length, test_pad, test_panel, test_start};
use refusals::Refusal;
use residues::Modulus;

// Two tables, the second with first entry 0, and a row and a workspace of these lengths.
#[tactic(auto, unfolding(definitions::specs::Refusals::projection_number))]
fn check_projection(
    n: u32,
    m: u32,
    a: &[u32],
    b: &[u32],
    res: usize,
    workspace: usize,
) -> Result<Modulus, Refusal>
    ensures { IsChecked m (projection_number n m a.now b.now res workspace) result }
{
    test_panel(n)?;
    let modulus = Modulus::new(m)?;
    let long = power(n);
    test_length(long, a.len())?;
    test_length(long, b.len())?;
    test_length((n as usize) + 1, res)?;
    test_pad(n, workspace)?;
    test_entries(m, a)?;
    test_entries(m, b)?;
    test_start(0, b)?;
    Ok(modulus)
}

// The projection of two tables, the second with first entry 0, to a row: entry i is the whole-panel entry of the subset product of a
// with the composition of b with the row that is 1 at place i and 0 elsewhere. Costs O(2^n n^2).
pub fn projection(
    n: u32,
    m: u32,
    a: &[u32],
    b: &[u32],
    res: &mut [u32],
    pad: &mut [u32],
) -> Result<(), Refusal>
    ensures value { word_of result ≡ projection_number n m a.now b.now (length res.old) (length pad.old) }
    ensures res_after { res.new ≡ after (word_of result) (projection_row n m a.now b.now) res.old }
    ensures pad_after { pad.new ≡ pad_after (word_of result) n pad.old }
{
    let modulus = check_projection(n, m, a, b, res.len(), pad.len())?;
    let used = checks::pad_length(n);
    projection::projection_row(n as usize, modulus, a, b, res, &mut pad[..used]);
    checks::clear(used, pad);
    Ok(())
}
