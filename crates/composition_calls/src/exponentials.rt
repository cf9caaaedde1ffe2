// The public call of the exponential.
ghost use Rattle.std.specs.Prelude.{◌≡◌, length};
ghost use Rattle.definitions.specs.Partitions.{exponential_table};
ghost use Rattle.refusals.specs.Words.{word_of};
ghost use Rattle.definitions.specs.Refusals.{exponential_number, after, pad_after};

use refusals::Refusal;

// The exponential of a table with first entry 0: the sums over partitions of the products of its entries at the blocks.
// Costs O(2^n n^2) like a subset product.
#[tactic(auto, unfolding(definitions::specs::Refusals::exponential_number))]
pub fn exponential(
    n: u32,
    m: u32,
    a: &[u32],
    res: &mut [u32],
    pad: &mut [u32],
) -> Result<(), Refusal>
    ensures value { word_of result ≡ exponential_number n m a.now (length res.old) (length pad.old) }
    ensures res_after { res.new ≡ after (word_of result) (exponential_table n m a.now) res.old }
    ensures pad_after { pad.new ≡ pad_after (word_of result) n pad.old }
{
    let modulus = checks::check_start(n, m, 0, a, res.len(), pad.len())?;
    let used = checks::pad_length(n);
    pointwise::copy(a, res);
    exponential::exponential_table(n as usize, modulus, res, &mut pad[..used]);
    checks::clear(used, pad);
    Ok(())
}
