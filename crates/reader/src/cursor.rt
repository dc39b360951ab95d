// The film reader.
ghost use Rattle.std.specs.Prelude.{◌≡◌, ◌<◌, ◌^◌, get_or};
ghost use Rattle.films.specs.Questions.{half};
ghost use Rattle.reader.specs.Reader.{start_of, Gives};

use limits::refusals::Refusal;

// A reader of a file's entries: the file's refusal, or 0, and how many entries it has given. The file's bytes are lent to each call
// beside it; any position may stand here.
#[derive(Clone, Copy, PartialEq, Eq, Debug)]
pub struct Reader {
    // Any number may stand here and is given as it stands, so it is a number and no `Refusal`.
    pub refusal: u32,
    pub position: usize,
}

// A film's number and round count.
#[derive(Clone, Copy, PartialEq, Eq, Debug)]
pub struct Entry {
    pub number: u16,
    pub rounds: u16,
}

// A byte of the file, 0 past its end.
fn byte_or_zero(file: &[u8], at: usize) -> u8
    ensures { result ≡ get_or file.now at 0 }
{
    file.get(at).copied().unwrap_or(0)
}

// The 16 bits at an offset, with 0 for a byte past the end.
fn half_or_zero(file: &[u8], at: usize) -> u16
    requires { at < 2 ^ 32 }
    ensures { result ≡ half file.now at }
{
    u16::from_le_bytes([byte_or_zero(file, at), byte_or_zero(file, at + 1)])
}

// A reader at the first entry of an accepted file; of another it carries the refusal.
#[tactic(auto, unfolding(crate::specs::Reader::start_of))]
pub fn start(file: &[u8]) -> Reader
    ensures { result ≡ start_of file.now }
{
    Reader {
        refusal: films::catalogue::verdict(file)
            .err()
            .map_or(0, Refusal::number),
        position: 0,
    }
}

// The entry at the reader's position, which moves past it; at the end it says so, and stays there. It gives what the bytes and the
// reader that it is handed say: a number other than 0 in the reader's refusal is given as it stands; with 0 there the entry is
// read from these bytes, 0 for a byte past their end, also where the reader was started on other bytes.
pub fn next(file: &[u8], reader: &mut Reader) -> Result<Option<Entry>, u32>
    ensures { Gives file.now reader.old (record { entry = result; reader = reader.new }) }
{
    if reader.refusal != 0 {
        return Err(reader.refusal);
    }
    let position = reader.position;
    let count = usize::from(half_or_zero(file, 0));
    if count <= position {
        return Ok(None);
    }
    let number = half_or_zero(file, 2 + 4 * position);
    let rounds = half_or_zero(file, 4 + 4 * position);
    reader.position = position + 1;
    Ok(Some(Entry { number, rounds }))
}
