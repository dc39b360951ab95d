// A journal's entries, 8 words each.
ghost use Rattle.std.specs.Prelude.{◌≡◌, ◌+◌, ◌*◌, ◌≤◌, length};
ghost use Rattle.replay.specs.Journal.{entry_words, entry_of_words, entry_at};

use model::Request;

// The call that an entry asks for.
#[derive(Clone, Copy)]
pub enum Entry {
    Book(Request),
    Drop(u32),
    Play(u64),
}

// words of an entry
pub const ENTRY_WORDS: usize = 8;

// The kinds are numbers, since programs in C write them into a journal.

// the kind of a booking
pub const BOOK: u64 = 1;

// the kind of a drop
pub const DROP: u64 = 2;

// the kind of a played round
pub const PLAY: u64 = 3;

// The call of an entry's words; none of another kind, nor with a name of more than 32 bits.
#[tactic(auto, unfolding(crate::specs::Journal::entry_of))]
fn entry_of(words: &[u64]) -> Option<Entry>
    requires { length words.now ≡ entry_words }
    ensures { result ≡ entry_of_words words.now }
{
    let [kind, argument, film, prefetch, reserve, cabs, first, last] = *words else {
        return None;
    };
    match kind {
        BOOK => Some(Entry::Book(Request {
            name: u32::try_from(argument).ok()?,
            film,
            prefetch,
            reserve,
            cabs,
            first,
            last,
        })),
        DROP => u32::try_from(argument).ok().map(Entry::Drop),
        PLAY => Some(Entry::Play(argument)),
        _ => None,
    }
}

// Entry i of the journal, which has it whole.
pub fn entry_at(journal: &[u64], i: usize) -> Option<Entry>
    requires { entry_words * i + entry_words ≤ length journal.now }
    ensures { result ≡ entry_at journal.now i }
{
    let at = ENTRY_WORDS * i;
    entry_of(&journal[at..at + ENTRY_WORDS])
}
