// The command grammar: a line of bytes is a command, or it is not.
#![tactic(auto)]

ghost use Rattle.std.specs.Prelude.{◌≡◌, ◌<◌, length, IfSome};
ghost use Rattle.commands.specs.Grammar.{first_word, later_words, command_of, open_of, book_of, drop_of, play_of, by_verb as Grammar·by_verb};
ghost use Rattle.commands.specs.Words.{words_from};
ghost use Rattle.commands.specs.Values.{numeral_of};

use arrayvec::ArrayVec;
use limits::bounds::{MAX_DIGITS, MAX_LINE};
use model::Request;

// OPEN T D M; BOOK with its request; DROP name; PLAY
#[derive(Clone, Copy, PartialEq, Eq, Debug)]
pub enum Command {
    Open(u64, u64, u64),
    Book(Request),
    Drop(u32),
    Play,
}

// numerals of a command, at most
const MAX_NUMERALS: usize = 7;

// A line's first word, and what follows the space after it, if there is one.
fn split_word(line: &[u8]) -> (&[u8], Option<&[u8]>)
    ensures word { result.0.now ≡ first_word line.now }
    ensures later { later_words line.now ≡ words_from result.1 }
    ensures shorter { IfSome result.1 (λ rest. length rest.now < length line.now) }
{
    match line.iter().position(|b| *b == b' ') {
        Some(end) => (&line[..end], Some(&line[end + 1..])),
        None => (line, None),
    }
}

// The number that a numeral of 1 to 20 digits says, if it fits 64 bits.
fn numeral(word: &[u8]) -> Option<u64>
    ensures { result ≡ numeral_of word.now }
{
    if word.is_empty() || MAX_DIGITS < word.len() {
        return None;
    }
    let mut value = 0u64;
    for byte in word {
        if !byte.is_ascii_digit() {
            return None;
        }
        value = value.checked_mul(10)?.checked_add(u64::from(*byte - b'0'))?;
    }
    Some(value)
}

// OPEN T D M
#[tactic(auto, unfolding(crate::specs::Grammar::open_of))]
fn open(numerals: &[u64]) -> Option<Command>
    ensures { result ≡ open_of numerals.now }
{
    match numerals {
        [rounds, disk, memory] => Some(Command::Open(*rounds, *disk, *memory)),
        _ => None,
    }
}

// BOOK name film p b cabs first last
#[tactic(auto, unfolding(crate::specs::Grammar::book_of))]
fn book(numerals: &[u64]) -> Option<Command>
    ensures { result ≡ book_of numerals.now }
{
    match numerals {
        [name, film, prefetch, reserve, cabs, first, last] => Some(Command::Book(Request {
            name: u32::try_from(*name).ok()?,
            film: *film,
            prefetch: *prefetch,
            reserve: *reserve,
            cabs: *cabs,
            first: *first,
            last: *last,
        })),
        _ => None,
    }
}

// DROP name
#[tactic(auto, unfolding(crate::specs::Grammar::drop_of))]
fn drop(numerals: &[u64]) -> Option<Command>
    ensures { result ≡ drop_of numerals.now }
{
    match numerals {
        [name] => Some(Command::Drop(u32::try_from(*name).ok()?)),
        _ => None,
    }
}

// PLAY
#[tactic(auto, unfolding(crate::specs::Grammar::play_of))]
fn play(numerals: &[u64]) -> Option<Command>
    ensures { result ≡ play_of numerals.now }
{
    if numerals.is_empty() {
        Some(Command::Play)
    } else {
        None
    }
}

// The command of a verb and the numerals after it.
#[tactic(auto, unfolding(crate::specs::Grammar::by_verb))]
fn by_verb(verb: &[u8], numerals: &[u64]) -> Option<Command>
    ensures { result ≡ Grammar·by_verb verb.now numerals.now }
{
    if verb == b"OPEN".as_slice() {
        open(numerals)
    } else if verb == b"BOOK".as_slice() {
        book(numerals)
    } else if verb == b"DROP".as_slice() {
        drop(numerals)
    } else if verb == b"PLAY".as_slice() {
        play(numerals)
    } else {
        None
    }
}

// The command that a line is: one of the four, of at most 200 bytes.
pub fn parse(line: &[u8]) -> Option<Command>
    ensures { result ≡ command_of line.now }
{
    if MAX_LINE < line.len() {
        return None;
    }
    let (verb, mut rest) = split_word(line);
    let mut numerals = ArrayVec::<u64, MAX_NUMERALS>::new();
    // Word by word over what is left, up to the first that is no numeral or that is one too many.
    while let Some(words) = rest {
        if numerals.is_full() {
            return None;
        }
        let (word, more) = split_word(words);
        numerals.push(numeral(word)?);
        rest = more;
    }
    by_verb(verb, numerals.as_slice())
}
