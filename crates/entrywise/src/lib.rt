// The calls that work entry by entry and need no workspace: sum and difference of tables, and, passed on, binomial product of
// rows.
#![tactic(auto)]

ghost use Rattle.std.specs.Prelude.{◌≡◌, ℕ, ◌<◌, length};
ghost use Rattle.definitions.specs.Sums.{tabulate, at};
ghost use Rattle.definitions.specs.Products.{sum_table, difference_table};
ghost use Rattle.refusals.specs.Words.{word_of};
ghost use Rattle.definitions.specs.Refusals.{sum_number, after};
ghost use Rattle.pointwise.specs.Pairs.{Inputs};
ghost use Rattle.entrywise.specs.Rules.{sum_at, difference_at};

pub use binomial::binomial_product;
use refusals::Refusal;
use residues::Modulus;

// Each entry of the result by one operation on those of the inputs.
fn combine<F: Fn(u32, u32) -> u32>(
    modulus: Modulus,
    a: &[u32],
    b: &[u32],
    res: &mut [u32],
    operation: F,
)
    requires inputs { Inputs modulus (length res.old) a.now b.now }
    requires callable { (x y : ℕ) → x < modulus.value → y < modulus.value → F.pre operation x y }
    ensures res_len { length res.new ≡ length res.old }
    ensures entries { (i : ℕ) → i < length res.old → F.post operation (at a.now i) (at b.now i) (at res.new i) }
{
    for (i, entry) in res.iter_mut().enumerate() {
        *entry = operation(a[i], b[i]);
    }
}

pub fn add_entries(modulus: Modulus, a: &[u32], b: &[u32], res: &mut [u32])
    requires { Inputs modulus (length res.old) a.now b.now }
    ensures { res.new ≡ tabulate (length res.old) (sum_at modulus.value a.now b.now) }
{
    combine(modulus, a, b, res, |x, y| modulus.add(x, y));
}

pub fn subtract_entries(modulus: Modulus, a: &[u32], b: &[u32], res: &mut [u32])
    requires { Inputs modulus (length res.old) a.now b.now }
    ensures { res.new ≡ tabulate (length res.old) (difference_at modulus.value a.now b.now) }
{
    combine(modulus, a, b, res, |x, y| modulus.subtract(x, y));
}

// The sum of two tables, entry by entry.
pub fn sum(n: u32, m: u32, a: &[u32], b: &[u32], res: &mut [u32]) -> Result<(), Refusal>
    ensures value { word_of result ≡ sum_number n m a.now b.now (length res.old) }
    ensures res_after { res.new ≡ after (word_of result) (sum_table n m a.now b.now) res.old }
{
    let modulus = checks::check_pair(n, m, a, b, res.len())?;
    add_entries(modulus, a, b, res);
    Ok(())
}

// The difference of two tables, entry by entry; a negative one goes round through m.
pub fn difference(n: u32, m: u32, a: &[u32], b: &[u32], res: &mut [u32]) -> Result<(), Refusal>
    ensures value { word_of result ≡ sum_number n m a.now b.now (length res.old) }
    ensures res_after { res.new ≡ after (word_of result) (difference_table n m a.now b.now) res.old }
{
    let modulus = checks::check_pair(n, m, a, b, res.len())?;
    subtract_entries(modulus, a, b, res);
    Ok(())
}
