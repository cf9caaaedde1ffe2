// The header of a table file of either kind, in file order: its first number (8, then 1), which is n in a full file and 32 + n
// in a sparse one, and then m (8, then 2).
#![tactic(auto, unfolding(definitions::specs::Files::first_says, definitions::specs::Files::first_of, definitions::specs::Files::read_header))]

ghost use Rattle.std.specs.Prelude.{◌≡◌};
ghost use Rattle.refusals.specs.Words.{word_of};
ghost use Rattle.definitions.specs.Files.{first_says, first_of, read_header, header_number, header_kind, header_controls, header_modulus, packed};
ghost use Rattle.table_header.specs.HeaderAnswers.{n_of, m_of, first_is, first_outcome, opening_outcome, modulus_behind, AnswerIs};

use checks::MOST_CONTROLS;
use number_groups::read_number;
use refusals::Refusal;
use residues::Modulus;

// What the first number of a sparse file has above n.
pub const SPARSE_MARK: u32 = 32;

#[derive(Clone, Copy)]
pub enum Kind {
    Full,
    Sparse,
}

#[derive(Clone, Copy)]
pub struct Header {
    pub kind: Kind,
    pub n: u32,
    pub m: u32,
}

// What the first number of a file says.
#[derive(Clone, Copy)]
pub struct First {
    pub kind: Kind,
    pub n: u32,
}

// A header, and the place behind it.
#[derive(Clone, Copy)]
pub struct Opening {
    pub header: Header,
    pub next: usize,
}

fn first_says(value: u32) -> First
    ensures { first_is result ≡ first_says value }
{
    if value < SPARSE_MARK {
        First {
            kind: Kind::Full,
            n: value,
        }
    } else {
        First {
            kind: Kind::Sparse,
            n: value - SPARSE_MARK,
        }
    }
}

// How the first number of a file becomes a kind and n.
pub fn first_of(most: u32, value: u32) -> Result<First, Refusal>
    ensures { first_outcome result ≡ first_of most value }
{
    let first = first_says(value);
    if most < first.n {
        return Err(Refusal::Panel);
    }
    Ok(first)
}

// m at a place, behind the first number.
fn read_modulus(first: First, bytes: &[u8], at: usize) -> Result<Opening, Refusal>
    ensures { opening_outcome bytes.now result ≡ modulus_behind (first_is first) bytes.now at }
{
    let number = read_number(bytes, at)?;
    let modulus = Modulus::new(number.value)?;
    Ok(Opening {
        header: Header {
            kind: first.kind,
            n: first.n,
            m: modulus.value(),
        },
        next: number.next,
    })
}

// The header of a file whose panel has at most so many controls.
pub fn read_opening(most: u32, bytes: &[u8]) -> Result<Opening, Refusal>
    ensures { opening_outcome bytes.now result ≡ read_header most bytes.now }
{
    let number = read_number(bytes, 0)?;
    let first = first_of(most, number.value)?;
    read_modulus(first, bytes, number.next)
}

// The header check: what the start of some bytes says of kind, n and m. It looks at nothing behind m.
pub fn header_check(bytes: &[u8]) -> Result<Header, Refusal>
    ensures { AnswerIs (header_number bytes.now) (header_kind bytes.now) (header_controls bytes.now) (header_modulus bytes.now) result }
{
    let opening = read_opening(MOST_CONTROLS, bytes)?;
    Ok(opening.header)
}

// An answer as one number: n · 2^32 + m, or 2^40 times the number of the refusal.
pub fn packed_answer(answer: Result<Header, Refusal>) -> u64
    ensures { result ≡ packed (n_of answer) (m_of answer) (word_of answer) }
{
    match answer {
        Ok(header) => u64::from(header.n) * 4294967296 + u64::from(header.m),
        Err(refusal) => 1099511627776 * u64::from(u32::from(refusal)),
    }
}

// The header check for a host written in C.
#[unsafe(no_mangle)]
pub extern "C" fn header_check_number(bytes: &[u8]) -> u64
    ensures { result ≡ packed (header_controls bytes.now) (header_modulus bytes.now) (header_number bytes.now) }
{
    packed_answer(header_check(bytes))
}
