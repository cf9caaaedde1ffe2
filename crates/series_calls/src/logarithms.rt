// The public call of the logarithm.
ghost use Rattle.std.specs.Prelude.{◌≡◌, length};
ghost use Rattle.definitions.specs.Partitions.{IsLogarithm};
ghost use Rattle.refusals.specs.Words.{word_of};
ghost use Rattle.definitions.specs.Refusals.{logarithm_number, after, pad_after};
ghost use Rattle.theory.specs.Logarithm.{logarithm_of};

use refusals::Refusal;

// The logarithm of a table with first entry 1: the one table with first entry 0 whose exponential it is. It exists under each
// modulus. Costs a composition.
#[tactic(auto, unfolding(definitions::specs::Refusals::logarithm_number))]
pub fn logarithm(n: u32, m: u32, e: &[u32], res: &mut [u32], pad: &mut [u32]) -> Result<(), Refusal>
    ensures value { word_of result ≡ logarithm_number n m e.now (length res.old) (length pad.old) }
    ensures res_after { res.new ≡ after (word_of result) (logarithm_of n m e.now) res.old }
    ensures logarithm { word_of result ≡ 0 → IsLogarithm n m e.now res.new }
    ensures pad_after { pad.new ≡ pad_after (word_of result) n pad.old }
{
    let modulus = checks::check_start(n, m, 1, e, res.len(), pad.len())?;
    let used = checks::pad_length(n);
    series_rows::logarithm_table(n as usize, modulus, e, &mut pad[..used]);
    composition::take_result(n as usize, pad, res);
    checks::clear(used, pad);
    Ok(())
}
