// What calls on tables and rows share: 01's tests with their words of refusal, in 01's order. Each shape of call has one
// check, and a call gets its modulus from that check alone. What clears the workspace (01: pad) is passed on beside them.
#![tactic(auto)]

ghost use Rattle.std.specs.Prelude.{◌≡◌, ◌∷◌};
ghost use Rattle.definitions.specs.Refusals.{first_word, modulus_word, sum_number, binomial_number, product_number, xor_number, single_number, composition_number};
ghost use Rattle.checks.specs.Accepted.{pair_words, start_number, table_number};
ghost use Rattle.checks.specs.Answers.{IsChecked};

pub use pads::{clear, pad_length, power};
pub use refusal_words::MOST_CONTROLS;
use refusal_words::{test_entries, test_halving, test_length, test_pad, test_panel, test_start};
use refusals::Refusal;
use residues::Modulus;

// Two inputs and a result that have the same length.
fn check_lists(m: u32, long: usize, a: &[u32], b: &[u32], res: usize) -> Result<Modulus, Refusal>
    ensures { IsChecked m (first_word (modulus_word m ∷ pair_words m long a.now b.now res)) result }
{
    let modulus = Modulus::new(m)?;
    test_length(long, a.len())?;
    test_length(long, b.len())?;
    test_length(long, res)?;
    test_entries(m, a)?;
    test_entries(m, b)?;
    Ok(modulus)
}

// Sum and difference: two tables and a result of this length.
#[tactic(auto, unfolding(definitions::specs::Refusals::sum_number))]
pub fn check_pair(n: u32, m: u32, a: &[u32], b: &[u32], res: usize) -> Result<Modulus, Refusal>
    ensures { IsChecked m (sum_number n m a.now b.now res) result }
{
    test_panel(n)?;
    check_lists(m, power(n), a, b, res)
}

// Binomial product: two rows and a result of this length.
#[tactic(auto, unfolding(definitions::specs::Refusals::binomial_number))]
pub fn check_rows(n: u32, m: u32, f: &[u32], g: &[u32], res: usize) -> Result<Modulus, Refusal>
    ensures { IsChecked m (binomial_number n m f.now g.now res) result }
{
    test_panel(n)?;
    check_lists(m, (n as usize) + 1, f, g, res)
}

// Products: two tables, and a result and a workspace of these lengths.
#[tactic(auto, unfolding(definitions::specs::Refusals::product_number))]
pub fn check_product(
    n: u32,
    m: u32,
    a: &[u32],
    b: &[u32],
    res: usize,
    workspace: usize,
) -> Result<Modulus, Refusal>
    ensures { IsChecked m (product_number n m a.now b.now res workspace) result }
{
    test_panel(n)?;
    let modulus = Modulus::new(m)?;
    let long = power(n);
    test_length(long, a.len())?;
    test_length(long, b.len())?;
    test_length(long, res)?;
    test_pad(n, workspace)?;
    test_entries(m, a)?;
    test_entries(m, b)?;
    Ok(modulus)
}

// The xor product's tests, for a result and a workspace of these lengths.
#[tactic(auto, unfolding(definitions::specs::Refusals::xor_number))]
pub fn check_xor(
    n: u32,
    m: u32,
    a: &[u32],
    b: &[u32],
    res: usize,
    workspace: usize,
) -> Result<Modulus, Refusal>
    ensures { IsChecked m (xor_number n m a.now b.now res workspace) result }
{
    let modulus = check_product(n, m, a, b, res, workspace)?;
    test_halving(m)?;
    Ok(modulus)
}

// One table, and a result and a workspace of these lengths.
#[tactic(auto, unfolding(definitions::specs::Refusals::single_number))]
pub fn check_single(
    n: u32,
    m: u32,
    a: &[u32],
    res: usize,
    workspace: usize,
) -> Result<Modulus, Refusal>
    ensures { IsChecked m (single_number n m a.now res workspace) result }
{
    test_panel(n)?;
    let modulus = Modulus::new(m)?;
    let long = power(n);
    test_length(long, a.len())?;
    test_length(long, res)?;
    test_pad(n, workspace)?;
    test_entries(m, a)?;
    Ok(modulus)
}

// The same, and its first entry: exponential (0) and logarithm (1).
pub fn check_start(
    n: u32,
    m: u32,
    first: u32,
    a: &[u32],
    res: usize,
    workspace: usize,
) -> Result<Modulus, Refusal>
    ensures { IsChecked m (start_number n m a.now res workspace first) result }
{
    let modulus = check_single(n, m, a, res, workspace)?;
    test_start(first, a)?;
    Ok(modulus)
}

// Composition: a table, a row, and a result and a workspace of these lengths.
#[tactic(auto, unfolding(definitions::specs::Refusals::composition_number))]
pub fn check_composition(
    n: u32,
    m: u32,
    a: &[u32],
    f: &[u32],
    res: usize,
    workspace: usize,
) -> Result<Modulus, Refusal>
    ensures { IsChecked m (composition_number n m a.now f.now res workspace) result }
{
    test_panel(n)?;
    let modulus = Modulus::new(m)?;
    let long = power(n);
    test_length(long, a.len())?;
    test_length((n as usize) + 1, f.len())?;
    test_length(long, res)?;
    test_pad(n, workspace)?;
    test_entries(m, a)?;
    test_entries(m, f)?;
    test_start(0, a)?;
    Ok(modulus)
}

// The writer's table.
pub fn check_table(n: u32, m: u32, a: &[u32]) -> Result<Modulus, Refusal>
    ensures { IsChecked m (table_number n m a.now) result }
{
    test_panel(n)?;
    let modulus = Modulus::new(m)?;
    test_length(power(n), a.len())?;
    test_entries(m, a)?;
    Ok(modulus)
}
