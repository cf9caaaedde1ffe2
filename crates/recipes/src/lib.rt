// The public call of a recipe on one line. It tests panel, modulus and lengths, reads the line, tests the entries, and then makes the
// recipe's calls in the stated pad, which it clears once, at the end.
#![tactic(auto)]

ghost use Rattle.std.specs.Prelude.{◌≡◌, ◌≤◌, length};
ghost use Rattle.definitions.specs.Limits.{most_controls, recipe_pad_length};
ghost use Rattle.definitions.specs.Refusals.{cleared};
ghost use Rattle.definitions.specs.Outcomes.{Outcome};
ghost use Rattle.definitions.specs.Recipes.{Tree, sum, ReadAs, Choice, worth, lettered, recipe_pad_word, lent_word, entries_word, recipe_number, recipe_result, recipe_pad};
ghost use Rattle.refusals.specs.Words.{word_of};
ghost use Rattle.checks.specs.Answers.{IsChecked};
ghost use Rattle.recipe_theory.specs.Postfix.{postfix};
ghost use Rattle.recipe_theory.specs.Stack.{Fits};
ghost use Rattle.recipe_machine.specs.Memory.{lent, Ready, Lettered, Worked};

use pads::{clear, power};
use recipe_machine::{Tables, place_of, work};
use recipe_reader::read_recipe;
use recipe_words::LONGEST_RECIPE;
use refusal_words::{test, test_entries, test_length, test_panel};
use refusals::Refusal;
use residues::Modulus;

// The tables that a recipe's pad has room for, behind its workspace.
const PLACES: usize = 32;

// How many entries of its pad a recipe uses.
fn recipe_pad_length(n: u32) -> usize
    requires { n ≤ most_controls }
    ensures { result ≡ recipe_pad_length n }
{
    place_of(n, PLACES)
}

fn test_recipe_pad(n: u32, found: usize) -> Result<(), Refusal>
    requires { n ≤ most_controls }
    ensures { word_of result ≡ recipe_pad_word n found }
{
    test(recipe_pad_length(n) <= found, Refusal::Pad)
}

// What is tested before the line is read: the panel, the modulus and the lengths.
#[tactic(auto, unfolding(definitions::specs::Recipes::lent_word))]
fn check_lent(n: u32, m: u32, tables: Tables, res: usize, pad: usize) -> Result<Modulus, Refusal>
    ensures { IsChecked m (lent_word n m (lent tables.entry) res pad) result }
{
    test_panel(n)?;
    let modulus = Modulus::new(m)?;
    let long = power(n);
    test_length(long, tables.a.len())?;
    test_length(long, tables.b.len())?;
    test_length(long, tables.c.len())?;
    test_length(long, tables.d.len())?;
    test_length(long, res)?;
    test_recipe_pad(n, pad)?;
    Ok(modulus)
}

// The entries of all four tables, used or not.
#[tactic(auto, unfolding(definitions::specs::Recipes::entries_word))]
fn test_all_entries(m: u32, tables: Tables) -> Result<(), Refusal>
    ensures { word_of result ≡ entries_word m (lent tables.entry) }
{
    test_entries(m, tables.a)?;
    test_entries(m, tables.b)?;
    test_entries(m, tables.c)?;
    test_entries(m, tables.d)
}

// Makes the calls of some code in the stated pad, and clears it, whether they are accepted or not.
fn make_calls(
    n: u32,
    modulus: Modulus,
    codes: &[u8],
    tables: Tables,
    res: &mut [u32],
    pad: &mut [u32],
) -> Result<(), Refusal>
    requires ready { Ready n modulus 0 res.old pad.old }
    requires lettered { Lettered n modulus.value (lent tables) }
    requires fits { Fits codes.now 0 }
    ensures worked { (by : Choice n modulus.value) (t : Tree sum) → codes.now ≡ postfix t → Worked (worth n modulus.value by (lent tables.entry) t) res.old (word_of result) res.new }
    ensures pad_after { pad.new ≡ cleared (recipe_pad_length n) pad.old }
{
    let used = recipe_pad_length(n);
    let done = work(n, modulus, codes, tables, res, &mut pad[..used]);
    clear(used, pad);
    done
}

// The recipe of a line over the tables A to D: what its calls give, made one by one, the left operand before the right. The first call
// to refuse gives the refusal; then the stated pad is 0 too, the one refusal that alters what was lent.
pub fn recipe(
    n: u32,
    m: u32,
    line: &[u8],
    a: &[u32],
    b: &[u32],
    c: &[u32],
    d: &[u32],
    res: &mut [u32],
    pad: &mut [u32],
) -> Result<(), Refusal>
    ensures value { (read : Outcome (Tree sum)) → ReadAs line.now read → (by : Choice n m) → word_of result ≡ recipe_number n m read (lettered a.now b.now c.now d.now) by res.old pad.old }
    ensures res_after { (read : Outcome (Tree sum)) → ReadAs line.now read → (by : Choice n m) → res.new ≡ recipe_result n m read (lettered a.now b.now c.now d.now) by res.old pad.old }
    ensures pad_after { (read : Outcome (Tree sum)) → ReadAs line.now read → pad.new ≡ recipe_pad n m read (lettered a.now b.now c.now d.now) (length res.old) pad.old }
{
    let tables = Tables { a, b, c, d };
    let modulus = check_lent(n, m, tables, res.len(), pad.len())?;
    let mut code = [0u8; LONGEST_RECIPE];
    let used = read_recipe(line, &mut code)?;
    test_all_entries(m, tables)?;
    make_calls(n, modulus, &code[..used], tables, res, pad)
}
