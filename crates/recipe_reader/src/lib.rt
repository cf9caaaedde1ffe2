// Recipes, read from a line: the readers of a level, of its operands and of a factor call each other. What is read is written in
// postfix order, a byte for each table or call, into lent bytes.
#![tactic(auto)]

ghost use Rattle.std.specs.Prelude.{◌≤◌, length};
ghost use Rattle.definitions.specs.Limits.{longest_recipe};
ghost use Rattle.definitions.specs.Recipes.{factor};
ghost use Rattle.recipe_words.specs.Answers.{operand, level_of, Room, Reads};
ghost use Rattle.recipe_reader.specs.Answers.{RecipeReads};

use recipe_words::{
    Level, Place, check_end, closed, joined, opening_at, read_letter, sign_at, too_long,
};
use refusals::Refusal;

// A level at a place: operands, and the signs between them. Its code goes behind what is used of the lent bytes.
#[cycle(reading)]
fn read_level(level: Level, line: &[u8], at: usize, code: &mut [u8], used: usize) -> Option<Place>
    requires { Room line.now at code.old used }
    ensures { Reads (level_of level) line.now at code.old used result code.new }
{
    let mut place = read_operand(level, line, at, code, used)?;
    while let Some(sign) = sign_at(level, line, place.next) {
        let second = read_operand(level, line, place.next + 1, code, place.used)?;
        place = joined(place, sign, second, code);
    }
    Some(place)
}

// An operand of a level: the operands of a sum are alternatives, theirs products, and theirs factors.
#[cycle(reading)]
fn read_operand(level: Level, line: &[u8], at: usize, code: &mut [u8], used: usize) -> Option<Place>
    requires { Room line.now at code.old used }
    ensures { Reads (operand level) line.now at code.old used result code.new }
{
    match level {
        Level::Sum => read_level(Level::Alternative, line, at, code, used),
        Level::Alternative => read_level(Level::Product, line, at, code, used),
        Level::Product => read_factor(line, at, code, used),
    }
}

// A factor: a letter, or a sum in parentheses, with or without a function.
#[cycle(reading)]
fn read_factor(line: &[u8], at: usize, code: &mut [u8], used: usize) -> Option<Place>
    requires { Room line.now at code.old used }
    ensures { Reads factor line.now at code.old used result code.new }
{
    let Some(opening) = opening_at(line, at) else {
        return read_letter(line, at, code, used);
    };
    let inner = read_level(Level::Sum, line, at + opening.length, code, used)?;
    closed(line, inner, opening.call, code)
}

// The recipe of a line as code, how many bytes it has; or the refusal: of a line that is too long or outside the grammar, then of one
// that nests too deep.
pub fn read_recipe(line: &[u8], code: &mut [u8]) -> Result<usize, Refusal>
    requires { longest_recipe ≤ length code.old }
    ensures { RecipeReads line.now result code.new }
{
    if too_long(line.len()) {
        return Err(Refusal::Recipe);
    }
    let place = read_level(Level::Sum, line, 0, code, 0).ok_or(Refusal::Recipe)?;
    check_end(line.len() - place.next, place.depth)?;
    Ok(place.used)
}
