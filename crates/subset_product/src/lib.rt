// 01's subset product of two tables, with its degree (01: returned ceiling).
#![tactic(auto)]

ghost use Rattle.std.specs.Prelude.{◌≡◌, length};
ghost use Rattle.definitions.specs.Products.{subset_table, degree};
ghost use Rattle.refusals.specs.Words.{word_of, value_of};
ghost use Rattle.definitions.specs.Refusals.{product_number, after, value_after, pad_after};

use degrees::degree;
use refusals::Refusal;

// Answers the degree of the result: the table H[S] = sum of A[L] B[S without L] over all L inside S, worked by the ranked recursion in the pad.
pub fn subset_product(
    n: u32,
    m: u32,
    a: &[u32],
    b: &[u32],
    res: &mut [u32],
    pad: &mut [u32],
) -> Result<u32, Refusal>
    ensures number { word_of result ≡ product_number n m a.now b.now (length res.old) (length pad.old) }
    ensures ceiling { value_of result ≡ value_after (word_of result) (degree n (subset_table n m a.now b.now)) }
    ensures res_after { res.new ≡ after (word_of result) (subset_table n m a.now b.now) res.old }
    ensures pad_after { pad.new ≡ pad_after (word_of result) n pad.old }
{
    let modulus = checks::check_product(n, m, a, b, res.len(), pad.len())?;
    let used = checks::pad_length(n);
    ranked::product(n as usize, modulus, a, b, res, &mut pad[..used]);
    checks::clear(used, pad);
    Ok(degree(n, res))
}
