// The public call of the inverse.
ghost use Rattle.std.specs.Prelude.{◌≡◌, length};
ghost use Rattle.definitions.specs.Partitions.{IsInverse};
ghost use Rattle.refusals.specs.Words.{word_of};
ghost use Rattle.definitions.specs.Refusals.{inverse_number, after, pad_after};
ghost use Rattle.series_calls.specs.InverseTables.{inverse_table};

use refusals::Refusal;

// The inverse of a table under the subset product, if its first entry has a reciprocal modulo m. Costs a composition.
#[tactic(auto, unfolding(definitions::specs::Refusals::inverse_number))]
pub fn inverse(n: u32, m: u32, a: &[u32], res: &mut [u32], pad: &mut [u32]) -> Result<(), Refusal>
    ensures value { word_of result ≡ inverse_number n m a.now (length res.old) (length pad.old) }
    ensures res_after { res.new ≡ after (word_of result) (inverse_table n m a.now) res.old }
    ensures inverse { word_of result ≡ 0 → IsInverse n m a.now res.new }
    ensures pad_after { pad.new ≡ pad_after (word_of result) n pad.old }
{
    let modulus = checks::check_single(n, m, a, res.len(), pad.len())?;
    let Ok(u) = modulus.reciprocal(a[0]) else {
        return Err(Refusal::Start);
    };
    let used = checks::pad_length(n);
    series_rows::inverse_table(n as usize, modulus, u, a, &mut pad[..used]);
    composition::take_result(n as usize, pad, res);
    checks::clear(used, pad);
    Ok(())
}
