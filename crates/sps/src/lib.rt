// The calls as C functions, each with the contract of the call itself. A slice is a pointer and a length.
#![tactic(auto)]

ghost use Rattle.std.specs.Prelude.{◌≡◌, length};
ghost use Rattle.definitions.specs.Products.{sum_table, difference_table, subset_table, union_table, xor_table, degree};
ghost use Rattle.definitions.specs.Rows.{binomial_row};
ghost use Rattle.definitions.specs.Partitions.{exponential_table, composition_table, IsLogarithm, IsInverse};
ghost use Rattle.definitions.specs.Projection.{projection_row};
ghost use Rattle.definitions.specs.Refusals.{sum_number, binomial_number, product_number, xor_number, exponential_number, logarithm_number, composition_number, inverse_number, projection_number};
ghost use Rattle.definitions.specs.Refusals.{after, value_after, pad_after};
ghost use Rattle.definitions.specs.Boards.{board, added_at, raised_over, lowered_over, lacking, fresh_board, fresh_number, change_number};
ghost use Rattle.definitions.specs.Outcomes.{Outcome};
ghost use Rattle.definitions.specs.Recipes.{Tree, sum, ReadAs, Choice, lettered, recipe_number, recipe_result, recipe_pad};
ghost use Rattle.definitions.specs.Files.{full, sparse, header_number, header_controls, header_modulus, packed, reader_number, reader_controls, reader_modulus, table_read, writer_number, written_count, written_buffer};
ghost use Rattle.definitions.specs.Pages.{pages_number, pages_written, pages_buffer};
ghost use Rattle.theory.specs.Logarithm.{logarithm_of};
ghost use Rattle.series_calls.specs.InverseTables.{inverse_table};
ghost use Rattle.refusals.specs.Words.{word_of, value_of};
ghost use Rattle.sps.specs.Packing.{with_number};

use refusals::{Refusal, number};

#[unsafe(no_mangle)]
pub extern "C" fn sps_sum(n: u32, m: u32, a: &[u32], b: &[u32], res: &mut [u32]) -> u32
    ensures value { result ≡ sum_number n m a.now b.now (length res.old) }
    ensures res_after { res.new ≡ after result (sum_table n m a.now b.now) res.old }
{
    number(entrywise::sum(n, m, a, b, res))
}

#[unsafe(no_mangle)]
pub extern "C" fn sps_difference(n: u32, m: u32, a: &[u32], b: &[u32], res: &mut [u32]) -> u32
    ensures value { result ≡ sum_number n m a.now b.now (length res.old) }
    ensures res_after { res.new ≡ after result (difference_table n m a.now b.now) res.old }
{
    number(entrywise::difference(n, m, a, b, res))
}

#[unsafe(no_mangle)]
pub extern "C" fn sps_binomial_product(n: u32, m: u32, f: &[u32], g: &[u32], res: &mut [u32]) -> u32
    ensures value { result ≡ binomial_number n m f.now g.now (length res.old) }
    ensures res_after { res.new ≡ after result (binomial_row n m f.now g.now) res.old }
{
    number(entrywise::binomial_product(n, m, f, g, res))
}

// An answer as one number for C: the value in the upper half, 0 beside a refusal, and the number in the lower.
fn packed_answer(answer: Result<u32, Refusal>) -> u64
    ensures { result ≡ with_number (value_of answer) (word_of answer) }
{
    match answer {
        Ok(value) => (value as u64) * 4294967296,
        Err(refusal) => u32::from(refusal) as u64,
    }
}

#[unsafe(no_mangle)]
pub extern "C" fn sps_subset_product(
    n: u32,
    m: u32,
    a: &[u32],
    b: &[u32],
    res: &mut [u32],
    pad: &mut [u32],
) -> u64
    ensures value { result ≡ with_number (value_after (product_number n m a.now b.now (length res.old) (length pad.old)) (degree n (subset_table n m a.now b.now)))
        (product_number n m a.now b.now (length res.old) (length pad.old)) }
    ensures res_after { res.new ≡ after (product_number n m a.now b.now (length res.old) (length pad.old))
        (subset_table n m a.now b.now) res.old }
    ensures pad_after { pad.new ≡ pad_after (product_number n m a.now b.now (length res.old) (length pad.old)) n pad.old }
{
    packed_answer(subset_product::subset_product(n, m, a, b, res, pad))
}

#[unsafe(no_mangle)]
pub extern "C" fn sps_union_product(
    n: u32,
    m: u32,
    a: &[u32],
    b: &[u32],
    res: &mut [u32],
    pad: &mut [u32],
) -> u32
    ensures value { result ≡ product_number n m a.now b.now (length res.old) (length pad.old) }
    ensures res_after { res.new ≡ after result (union_table n m a.now b.now) res.old }
    ensures pad_after { pad.new ≡ pad_after result n pad.old }
{
    number(transforms::union_product(n, m, a, b, res, pad))
}

#[unsafe(no_mangle)]
pub extern "C" fn sps_xor_product(
    n: u32,
    m: u32,
    a: &[u32],
    b: &[u32],
    res: &mut [u32],
    pad: &mut [u32],
) -> u32
    ensures value { result ≡ xor_number n m a.now b.now (length res.old) (length pad.old) }
    ensures res_after { res.new ≡ after result (xor_table n m a.now b.now) res.old }
    ensures pad_after { pad.new ≡ pad_after result n pad.old }
{
    number(transforms::xor_product(n, m, a, b, res, pad))
}

#[unsafe(no_mangle)]
pub extern "C" fn sps_exponential(
    n: u32,
    m: u32,
    a: &[u32],
    res: &mut [u32],
    pad: &mut [u32],
) -> u32
    ensures value { result ≡ exponential_number n m a.now (length res.old) (length pad.old) }
    ensures res_after { res.new ≡ after result (exponential_table n m a.now) res.old }
    ensures pad_after { pad.new ≡ pad_after result n pad.old }
{
    number(series_calls::exponential(n, m, a, res, pad))
}

#[unsafe(no_mangle)]
pub extern "C" fn sps_logarithm(n: u32, m: u32, a: &[u32], res: &mut [u32], pad: &mut [u32]) -> u32
    ensures value { result ≡ logarithm_number n m a.now (length res.old) (length pad.old) }
    ensures res_after { res.new ≡ after result (logarithm_of n m a.now) res.old }
    ensures logarithm { result ≡ 0 → IsLogarithm n m a.now res.new }
    ensures pad_after { pad.new ≡ pad_after result n pad.old }
{
    number(series_calls::logarithm(n, m, a, res, pad))
}

#[unsafe(no_mangle)]
pub extern "C" fn sps_composition(
    n: u32,
    m: u32,
    a: &[u32],
    f: &[u32],
    res: &mut [u32],
    pad: &mut [u32],
) -> u32
    ensures value { result ≡ composition_number n m a.now f.now (length res.old) (length pad.old) }
    ensures res_after { res.new ≡ after result (composition_table n m f.now a.now) res.old }
    ensures pad_after { pad.new ≡ pad_after result n pad.old }
{
    number(series_calls::composition(n, m, a, f, res, pad))
}

#[unsafe(no_mangle)]
pub extern "C" fn sps_inverse(n: u32, m: u32, a: &[u32], res: &mut [u32], pad: &mut [u32]) -> u32
    ensures value { result ≡ inverse_number n m a.now (length res.old) (length pad.old) }
    ensures res_after { res.new ≡ after result (inverse_table n m a.now) res.old }
    ensures inverse { result ≡ 0 → IsInverse n m a.now res.new }
    ensures pad_after { pad.new ≡ pad_after result n pad.old }
{
    number(series_calls::inverse(n, m, a, res, pad))
}

#[unsafe(no_mangle)]
pub extern "C" fn sps_projection(
    n: u32,
    m: u32,
    a: &[u32],
    b: &[u32],
    res: &mut [u32],
    pad: &mut [u32],
) -> u32
    ensures value { result ≡ projection_number n m a.now b.now (length res.old) (length pad.old) }
    ensures res_after { res.new ≡ after result (projection_row n m a.now b.now) res.old }
    ensures pad_after { pad.new ≡ pad_after result n pad.old }
{
    number(projection_calls::projection(n, m, a, b, res, pad))
}

#[unsafe(no_mangle)]
pub extern "C" fn sps_board_fresh(
    n: u32,
    m: u32,
    a: &mut [u32],
    e: &mut [u32],
    i: &mut [u32],
) -> u32
    ensures value { result ≡ fresh_number n m (board a.old e.old i.old) }
    ensures a_after { a.new ≡ after result (fresh_board n).weights a.old }
    ensures e_after { e.new ≡ after result (fresh_board n).exponential e.old }
    ensures i_after { i.new ≡ after result (fresh_board n).inverse i.old }
{
    number(board_calls::board_fresh(n, m, a, e, i))
}

#[unsafe(no_mangle)]
pub extern "C" fn sps_board_add(
    n: u32,
    m: u32,
    set: u32,
    weight: u32,
    a: &mut [u32],
    e: &mut [u32],
    i: &mut [u32],
) -> u32
    ensures value { result ≡ change_number n m set weight (board a.old e.old i.old) }
    ensures a_after { a.new ≡ after result (added_at n m set weight a.old) a.old }
    ensures e_after { e.new ≡ after result (raised_over n m set weight e.old) e.old }
    ensures i_after { i.new ≡ after result (lowered_over n m set weight i.old) i.old }
{
    number(board_calls::board_add(n, m, set, weight, a, e, i))
}

#[unsafe(no_mangle)]
pub extern "C" fn sps_board_take(
    n: u32,
    m: u32,
    set: u32,
    weight: u32,
    a: &mut [u32],
    e: &mut [u32],
    i: &mut [u32],
) -> u32
    ensures value { result ≡ change_number n m set weight (board a.old e.old i.old) }
    ensures a_after { a.new ≡ after result (added_at n m set (lacking m weight) a.old) a.old }
    ensures e_after { e.new ≡ after result (raised_over n m set (lacking m weight) e.old) e.old }
    ensures i_after { i.new ≡ after result (raised_over n m set weight i.old) i.old }
{
    number(board_calls::board_take(n, m, set, weight, a, e, i))
}

#[unsafe(no_mangle)]
pub extern "C" fn sps_recipe(
    n: u32,
    m: u32,
    line: &[u8],
    a: &[u32],
    b: &[u32],
    c: &[u32],
    d: &[u32],
    res: &mut [u32],
    pad: &mut [u32],
) -> u32
    ensures value { (read : Outcome (Tree sum)) → ReadAs line.now read → (by : Choice n m) → result ≡ recipe_number n m read (lettered a.now b.now c.now d.now) by res.old pad.old }
    ensures res_after { (read : Outcome (Tree sum)) → ReadAs line.now read → (by : Choice n m) → res.new ≡ recipe_result n m read (lettered a.now b.now c.now d.now) by res.old pad.old }
    ensures pad_after { (read : Outcome (Tree sum)) → ReadAs line.now read → pad.new ≡ recipe_pad n m read (lettered a.now b.now c.now d.now) (length res.old) pad.old }
{
    number(recipes::recipe(n, m, line, a, b, c, d, res, pad))
}

#[unsafe(no_mangle)]
pub extern "C" fn sps_header_check(bytes: &[u8]) -> u64
    ensures { result ≡ packed (header_controls bytes.now) (header_modulus bytes.now) (header_number bytes.now) }
{
    table_file::header_check_number(bytes)
}

#[unsafe(no_mangle)]
pub extern "C" fn sps_read_table(bytes: &[u8], table: &mut [u32]) -> u64
    ensures value { result ≡ packed (reader_controls bytes.now (length table.old)) (reader_modulus bytes.now (length table.old)) (reader_number bytes.now (length table.old)) }
    ensures table_after { table.new ≡ table_read bytes.now table.old }
{
    table_file::read_table_number(bytes, table)
}

#[unsafe(no_mangle)]
pub extern "C" fn sps_write_table(n: u32, m: u32, table: &[u32], buffer: &mut [u8]) -> u64
    ensures value { result ≡ with_number (written_count full n m table.now (length buffer.old)) (writer_number full n m table.now (length buffer.old)) }
    ensures buffer_after { buffer.new ≡ written_buffer full n m table.now buffer.old }
{
    packed_answer(table_writer::write_table(n, m, table, buffer))
}

#[unsafe(no_mangle)]
pub extern "C" fn sps_write_sparse(n: u32, m: u32, table: &[u32], buffer: &mut [u8]) -> u64
    ensures value { result ≡ with_number (written_count sparse n m table.now (length buffer.old)) (writer_number sparse n m table.now (length buffer.old)) }
    ensures buffer_after { buffer.new ≡ written_buffer sparse n m table.now buffer.old }
{
    packed_answer(sparse_writer::write_sparse(n, m, table, buffer))
}

#[unsafe(no_mangle)]
pub extern "C" fn sps_write_pages(
    n: u32,
    m: u32,
    table: &[u32],
    labels: &[u8],
    buffer: &mut [u8],
) -> u64
    ensures value { result ≡ with_number (pages_written n m table.now labels.now (length buffer.old)) (pages_number n m table.now labels.now (length buffer.old)) }
    ensures buffer_after { buffer.new ≡ pages_buffer n m table.now labels.now buffer.old }
{
    packed_answer(pages::write_pages(n, m, table, labels, buffer))
}
