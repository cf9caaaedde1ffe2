// The public call of the composition with a row.
ghost use Rattle.std.specs.Prelude.{◌≡◌, length};
ghost use Rattle.definitions.specs.Partitions.{composition_table};
ghost use Rattle.refusals.specs.Words.{word_of};
ghost use Rattle.definitions.specs.Refusals.{composition_number, after, pad_after};

use refusals::Refusal;

// The composition of a table with first entry 0 with a row: the same sums, each product times the row's entry at the number
// of blocks. Costs O(2^n n^2).
pub fn composition(
    n: u32,
    m: u32,
    a: &[u32],
    f: &[u32],
    res: &mut [u32],
    pad: &mut [u32],
) -> Result<(), Refusal>
    ensures value { word_of result ≡ composition_number n m a.now f.now (length res.old) (length pad.old) }
    ensures res_after { res.new ≡ after (word_of result) (composition_table n m f.now a.now) res.old }
    ensures pad_after { pad.new ≡ pad_after (word_of result) n pad.old }
{
    let modulus = checks::check_composition(n, m, a, f, res.len(), pad.len())?;
    let used = checks::pad_length(n);
    composition::composition_table(n as usize, modulus, a, f, &mut pad[..used]);
    composition::take_result(n as usize, pad, res);
    checks::clear(used, pad);
    Ok(())
}
