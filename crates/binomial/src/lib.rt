// The binomial product of rows, by rows of Pascal's triangle.
#![tactic(auto)]

ghost use Rattle.std.specs.Prelude.{◌≡◌, suc, ◌%◌, ◌<◌, ◌≤◌, length};
ghost use Rattle.definitions.specs.Sums.{sum, tabulate};
ghost use Rattle.definitions.specs.Rows.{binomial_row};
ghost use Rattle.refusals.specs.Words.{word_of};
ghost use Rattle.definitions.specs.Refusals.{binomial_number, after};
ghost use Rattle.checks.specs.Accepted.{Entries};
ghost use Rattle.pointwise.specs.Pairs.{Inputs};
ghost use Rattle.binomial.specs.Rules.{binomial_at, term_at, pascal_at, row_width};

use refusals::Refusal;
use residues::{Accumulator, Modulus};

// A row of Pascal's triangle: there are at most 16 controls.
const ROW_WIDTH: usize = 17;

// The row of Pascal's triangle below this one, modulo m. There is always a 0 behind the last number, so the width is enough.
fn next_pascal_row(modulus: Modulus, row: &mut [u32; ROW_WIDTH])
    requires { Entries row_width modulus.value row.old }
    ensures { row.new ≡ tabulate row_width (pascal_at modulus.value row.old) }
{
    let mut left: u32 = 0;
    for entry in row.iter_mut() {
        let here = *entry;
        *entry = modulus.add(here, left);
        left = here;
    }
}

// Entry i of the binomial product, from the i-th row of Pascal's triangle.
fn binomial_entry(
    modulus: Modulus,
    choices: &[u32; ROW_WIDTH],
    f: &[u32],
    g: &[u32],
    i: usize,
) -> u32
    requires inputs { Inputs modulus (length f.now) f.now g.now }
    requires entries { Entries row_width modulus.value choices.now }
    requires i_in_bounds { (i < length f.now) × (i < row_width) }
    ensures { result ≡ sum (suc i) (term_at choices.now f.now g.now i) % modulus.value }
{
    let mut total = Accumulator::start();
    for j in 0..=i {
        let product = modulus.multiply(f[j], g[i - j]);
        total = total.add_product(choices[j], product);
    }
    total.residue(modulus)
}

fn binomial_entries(modulus: Modulus, f: &[u32], g: &[u32], res: &mut [u32])
    requires inputs { Inputs modulus (length res.old) f.now g.now }
    requires res_len_bound { length res.old ≤ row_width }
    ensures { res.new ≡ tabulate (length res.old) (binomial_at modulus.value f.now g.now) }
{
    let mut choices = [0u32; ROW_WIDTH];
    choices[0] = 1;
    for (i, entry) in res.iter_mut().enumerate() {
        *entry = binomial_entry(modulus, &choices, f, g, i);
        next_pascal_row(modulus, &mut choices);
    }
}

// The binomial product of two rows.
pub fn binomial_product(
    n: u32,
    m: u32,
    f: &[u32],
    g: &[u32],
    res: &mut [u32],
) -> Result<(), Refusal>
    ensures value { word_of result ≡ binomial_number n m f.now g.now (length res.old) }
    ensures res_after { res.new ≡ after (word_of result) (binomial_row n m f.now g.now) res.old }
{
    let modulus = checks::check_rows(n, m, f, g, res.len())?;
    binomial_entries(modulus, f, g, res);
    Ok(())
}
