// The parts of a recipe's line: its length, openings and signs at a place, a letter, a closing parenthesis, and what is decided at the end.
// What is read is written in postfix order, a byte for each table or call, into lent bytes.
#![tactic(auto)]

ghost use Rattle.std.specs.Prelude.{◌≡◌, ◌+◌, ◌<◌, ◌≤◌, max, ltb, length, drop, set};
ghost use Rattle.std.proofs.Math.Option.{none};
ghost use Rattle.definitions.specs.Limits.{longest_recipe};
ghost use Rattle.definitions.specs.Recipes.{factor};
ghost use Rattle.recipe_theory.specs.Reading.{next_sign, opening_of};
ghost use Rattle.refusals.specs.Words.{word_of};
ghost use Rattle.recipe_words.specs.Answers.{level_of, sign_answer, opening_answer, end_word, Room, Reads, Closes};

use refusals::Refusal;

// The bytes that the line of a recipe may have.
pub const LONGEST_RECIPE: usize = 120;

// How deep the parentheses of a recipe may nest.
const DEEPEST_NESTING: usize = 8;

// The levels of a recipe whose operands are joined by signs.
#[derive(Clone, Copy)]
pub enum Level {
    Sum,
    Alternative,
    Product,
}

// Behind a part of a recipe: the place in the line, how many bytes of code there are, and how deep the part nests.
#[derive(Clone, Copy)]
pub struct Place {
    pub next: usize,
    pub used: usize,
    pub depth: usize,
}

// What opens a recipe in parentheses: how many bytes, and the code of the function, if there is one.
#[derive(Clone, Copy)]
pub struct Opening {
    pub length: usize,
    pub call: Option<u8>,
}

// What opens at a place.
pub fn opening_at(line: &[u8], at: usize) -> Option<Opening>
    requires { at ≤ length line.now }
    ensures { result ≡ opening_answer (opening_of (drop at line.now)) }
{
    let rest = &line[at..];
    if rest.starts_with(b"(") {
        Some(Opening {
            length: 1,
            call: None,
        })
    } else if rest.starts_with(b"exp(") {
        Some(Opening {
            length: 4,
            call: Some(b'e'),
        })
    } else if rest.starts_with(b"log(") {
        Some(Opening {
            length: 4,
            call: Some(b'l'),
        })
    } else if rest.starts_with(b"inv(") {
        Some(Opening {
            length: 4,
            call: Some(b'i'),
        })
    } else {
        None
    }
}

// The sign between operands of a level, if one stands at a place.
pub fn sign_at(level: Level, line: &[u8], at: usize) -> Option<u8>
    ensures { result ≡ sign_answer (next_sign (level_of level) (drop at line.now)) }
{
    let sign = *line.get(at)?;
    match (level, sign) {
        (Level::Sum, b'+' | b'-') => Some(sign),
        (Level::Alternative, b'|' | b'^') => Some(sign),
        (Level::Product, b'*') => Some(sign),
        _ => None,
    }
}

// Behind two operands and the sign between them, whose code is put last.
pub fn joined(first: Place, sign: u8, second: Place, code: &mut [u8]) -> Place
    requires { second.used < length code.old }
    ensures next_value { (result.next ≡ second.next) × (result.used ≡ second.used + 1) × (result.depth ≡ max first.depth second.depth) }
    ensures code_after { code.new ≡ set code.old second.used sign }
{
    code[second.used] = sign;
    Place {
        next: second.next,
        used: second.used + 1,
        depth: first.depth.max(second.depth),
    }
}

// A letter at a place where nothing opens.
pub fn read_letter(line: &[u8], at: usize, code: &mut [u8], used: usize) -> Option<Place>
    requires line_value { opening_of (drop at line.now) ≡ none }
    requires room { Room line.now at code.old used }
    ensures { Reads factor line.now at code.old used result code.new }
{
    match *line.get(at)? {
        letter @ b'A'..=b'D' => {
            code[used] = letter;
            Some(Place {
                next: at + 1,
                used: used + 1,
                depth: 0,
            })
        }
        _ => None,
    }
}

// Behind the closing parenthesis, with the code of the function, if there is one.
pub fn closed(line: &[u8], inner: Place, call: Option<u8>, code: &mut [u8]) -> Option<Place>
    requires depth_le_next { inner.depth ≤ inner.next }
    requires used_in_bounds { inner.next < length line.now → inner.used < length code.old }
    ensures { Closes line.now inner call code.old result code.new }
{
    if *line.get(inner.next)? != b')' {
        return None;
    }
    let mut used = inner.used;
    if let Some(call) = call {
        code[used] = call;
        used += 1;
    }
    Some(Place {
        next: inner.next + 1,
        used,
        depth: inner.depth + 1,
    })
}

// Whether a line of so many bytes is too long.
pub fn too_long(long: usize) -> bool
    ensures { result ≡ ltb longest_recipe long }
{
    LONGEST_RECIPE < long
}

// What refuses a line whose recipe has been read: bytes that are left behind it, then a recipe that nests too deep.
pub fn check_end(left: usize, depth: usize) -> Result<(), Refusal>
    ensures { word_of result ≡ end_word left depth }
{
    if 0 < left {
        return Err(Refusal::Recipe);
    }
    if DEEPEST_NESTING < depth {
        return Err(Refusal::Nesting);
    }
    Ok(())
}
