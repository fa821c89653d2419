// A command line, taken apart.
ghost use Rattle.std.specs.Prelude.{◌≡◌, [], ◌∷◌, IfNone, IfOk, IfSome, codes, map};
ghost use Rattle.std.specs.List.{flat_map};
ghost use Rattle.session.specs.Commands.{Names, NamesNone, NoBare, NoneAtSpot, NoneWithOne, Spells, SpellsNone, numbers_in};
ghost use Rattle.session.specs.Words.{number_of, words};

use crate::words::{number, trimmed, words_of};
use std::alloc::{AllocError, Global};

/// The most rows that a search uses, and so the most that it makes sense to lend.
pub const MOST_ROWS: u32 = 65_536;

/// An instruction as reports name it: its thread, and its number within it.
#[derive(Clone, Copy)]
pub struct Spot {
    pub thread: u8,
    pub number: u8,
}

/// The two kinds of board that a job may be for.
#[derive(Clone, Copy)]
pub enum Kinds {
    Buffered,
    Unbuffered,
}

/// What a line asks for.
#[derive(Drop)]
pub enum Command<'a> {
    // A line without words.
    Nothing,
    Board(Kinds),
    Rows(u32),
    Runs(u32),
    // The path of a file.
    Read(&'a [u8]),
    Listing,
    Bar(Spot),
    Free(Spot),
    Solve,
    Report,
    Test(Vec<Spot>),
    Show(Spot),
    Plain,
    Look,
    Help,
    Quit,
}

/// The command that a line gives, if it gives one.
pub fn command_of(alloc: Global, line: &[u8]) -> Result<Option<Command<'_>>, AllocError>
    ensures some { IfOk result (λ answer. IfSome answer (λ command. Spells command (words line.now))) }
    ensures none { IfOk result (λ answer. IfNone answer (SpellsNone (words line.now))) }
{
    let words = words_of(alloc, line)?;
    match words.as_slice() {
        [] => Ok(Some(Command::Nothing)),
        [b"test", spots @ ..] => tested(alloc, spots),
        [b"read", _, ..] => Ok(Some(Command::Read(path_of(line)))),
        [word] => Ok(bare(word)),
        [word, operand] => Ok(with_one(word, operand)),
        [word, thread, number] => Ok(at_spot(word, thread, number)),
        _ => Ok(None),
    }
}

// The command of a word that stands alone.
fn bare(word: &[u8]) -> Option<Command<'static>>
    ensures some { IfSome result (λ command. Spells command (word.now ∷ [])) }
    ensures none { IfNone result (NoBare word.now) }
{
    match word {
        b"listing" => Some(Command::Listing),
        b"solve" => Some(Command::Solve),
        b"report" => Some(Command::Report),
        b"plain" => Some(Command::Plain),
        b"look" => Some(Command::Look),
        b"help" => Some(Command::Help),
        b"quit" => Some(Command::Quit),
        _ => None,
    }
}

// The command of a word with one more.
fn with_one(word: &[u8], operand: &[u8]) -> Option<Command<'static>>
    ensures some { IfSome result (λ command. Spells command (word.now ∷ operand.now ∷ [])) }
    ensures none { IfNone result (NoneWithOne word.now operand.now) }
{
    Some(match (word, operand) {
        (b"board", b"tso") => Command::Board(Kinds::Buffered),
        (b"board", b"none") => Command::Board(Kinds::Unbuffered),
        (b"rows", count) => Command::Rows(number(count, MOST_ROWS)?),
        (b"runs", count) => Command::Runs(number(count, MOST_ROWS)?),
        _ => return None,
    })
}

// The command of a word that stands before an instruction.
fn at_spot(word: &[u8], thread: &[u8], number: &[u8]) -> Option<Command<'static>>
    ensures some { IfSome result (λ command. Spells command (word.now ∷ thread.now ∷ number.now ∷ [])) }
    ensures none { IfNone result (NoneAtSpot word.now thread.now number.now) }
{
    let spot = spot_named(thread, number)?;
    match word {
        b"bar" => Some(Command::Bar(spot)),
        b"free" => Some(Command::Free(spot)),
        b"show" => Some(Command::Show(spot)),
        _ => None,
    }
}

// The rest of a line after the word `read`, without the spaces round it.
fn path_of(line: &[u8]) -> &[u8] {
    match trimmed(line) {
        [b'r', b'e', b'a', b'd', path @ ..] => trimmed(path),
        _ => &[],
    }
}

// A number that fits a byte.
fn byte_number(word: &[u8]) -> Option<u8>
    ensures { result ≡ number_of 255 word.now }
{
    number(word, 255).map(|value| value as u8)
}

fn spot_named(thread: &[u8], number: &[u8]) -> Option<Spot>
    ensures some { IfSome result (λ spot. Names spot thread.now number.now) }
    ensures none { IfNone result (NamesNone thread.now number.now) }
{
    Some(Spot {
        thread: byte_number(thread)?,
        number: byte_number(number)?,
    })
}

// The command for the instructions that the words name in pairs.
fn tested(alloc: Global, words: &[&[u8]]) -> Result<Option<Command<'static>>, AllocError>
    ensures { IfOk result (λ answer. IfSome answer
        (λ command. Spells command (codes "test" ∷ map (λ w. w.now) words.now))) }
{
    let Some(numbers) = numbers_of(alloc, words)? else {
        return Ok(None);
    };
    let Some(spots) = spots_of(alloc, &numbers)? else {
        return Ok(None);
    };
    Ok(Some(Command::Test(spots)))
}

// The number that each word gives, none where one gives none.
fn numbers_of(alloc: Global, words: &[&[u8]]) -> Result<Option<Vec<u8>>, AllocError>
    ensures { IfOk result (λ answer. IfSome answer
        (λ v. map (λ w. number_of 255 w.now) words.now ≡ map (λ n. Some n) v.items)) }
{
    let mut numbers = Vec::new(alloc);
    for word in words {
        let Some(number) = byte_number(word) else {
            return Ok(None);
        };
        numbers.push(number)?;
    }
    Ok(Some(numbers))
}

// The instructions whose numbers stand in pairs, none where one is left over.
fn spots_of(alloc: Global, numbers: &[u8]) -> Result<Option<Vec<Spot>>, AllocError>
    ensures { IfOk result (λ answer. IfSome answer (λ v. flat_map numbers_in v.items ≡ numbers.now)) }
{
    let mut spots = Vec::new(alloc);
    let mut rest = numbers;
    while let [thread, number, after @ ..] = rest {
        spots.push(Spot {
            thread: *thread,
            number: *number,
        })?;
        rest = after;
    }
    if rest.is_empty() {
        Ok(Some(spots))
    } else {
        Ok(None)
    }
}
