// Union and xor product: transforms that act on one control at a time turn each of them into a product entry by entry.
#![tactic(auto)]

ghost use Rattle.std.specs.Prelude.{◌≡◌, ◌%◌, length};
ghost use Rattle.definitions.specs.Limits.{pad_length};
ghost use Rattle.definitions.specs.Products.{union_table, xor_table};
ghost use Rattle.refusals.specs.Words.{word_of};
ghost use Rattle.definitions.specs.Refusals.{product_number, xor_number, after, cleared, pad_after};
ghost use Rattle.transform_passes.specs.Steps.{Transformed, products};
ghost use Rattle.transforms.specs.Inputs.{Inputs};

use refusals::Refusal;
use residues::Modulus;
use transform_passes::{Moebius, Transform, Walsh, Zeta};

// Two tables transformed, multiplied entry by entry and transformed back, with a workspace (01: pad), which is cleared.
fn product_by<There: Transform, Back: Transform>(
    n: u32,
    modulus: Modulus,
    a: &[u32],
    b: &[u32],
    res: &mut [u32],
    workspace: &mut [u32],
)
    requires { Inputs n modulus a.now b.now (length res.old) (length workspace.old) }
    ensures transformed { Transformed modulus.value Back.step n (products n modulus.value There.step a.now b.now) res.new }
    ensures workspace_after { workspace.new ≡ cleared (pad_length n) workspace.old }
{
    let long = checks::power(n);
    transform_passes::convolve::<There, Back>(n, modulus, a, b, res, &mut workspace[..long]);
    let used = checks::pad_length(n);
    checks::clear(used, workspace);
}

// The xor product of accepted tables, under an odd modulus: what the transform made twice multiplied by is taken out again.
fn xor_tables(
    n: u32,
    modulus: Modulus,
    a: &[u32],
    b: &[u32],
    res: &mut [u32],
    workspace: &mut [u32],
)
    requires inputs { Inputs n modulus a.now b.now (length res.old) (length workspace.old) }
    requires value_value { modulus.value % 2 ≡ 1 }
    ensures res_after { res.new ≡ xor_table n modulus.value a.now b.now }
    ensures workspace_after { workspace.new ≡ cleared (pad_length n) workspace.old }
{
    product_by::<Walsh, Walsh>(n, modulus, a, b, res, workspace);
    pointwise::scale(n, modulus, transform_passes::halved(n, modulus), res);
}

// The union product: the sum over all pairs of sets with the given union.
pub fn union_product(
    n: u32,
    m: u32,
    a: &[u32],
    b: &[u32],
    res: &mut [u32],
    pad: &mut [u32],
) -> Result<(), Refusal>
    ensures value { word_of result ≡ product_number n m a.now b.now (length res.old) (length pad.old) }
    ensures res_after { res.new ≡ after (word_of result) (union_table n m a.now b.now) res.old }
    ensures pad_after { pad.new ≡ pad_after (word_of result) n pad.old }
{
    let modulus = checks::check_product(n, m, a, b, res.len(), pad.len())?;
    product_by::<Zeta, Moebius>(n, modulus, a, b, res, pad);
    Ok(())
}

// The xor product: the sum over all pairs of sets with the given symmetric difference, under an odd modulus.
pub fn xor_product(
    n: u32,
    m: u32,
    a: &[u32],
    b: &[u32],
    res: &mut [u32],
    pad: &mut [u32],
) -> Result<(), Refusal>
    ensures value { word_of result ≡ xor_number n m a.now b.now (length res.old) (length pad.old) }
    ensures res_after { res.new ≡ after (word_of result) (xor_table n m a.now b.now) res.old }
    ensures pad_after { pad.new ≡ pad_after (word_of result) n pad.old }
{
    let modulus = checks::check_xor(n, m, a, b, res.len(), pad.len())?;
    xor_tables(n, modulus, a, b, res, pad);
    Ok(())
}
