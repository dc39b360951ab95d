// The film reader as a struct that holds the file's bytes and a position.
ghost use Rattle.std.specs.Prelude.{◌≡◌};
ghost use Rattle.lent.specs.FilmReader.{started, entry_here, moved};

use reader::cursor::{self, Entry, Reader};

// The file's bytes, and a reader of its entries.
#[derive(Clone, Copy, PartialEq, Eq, Debug)]
pub struct FilmReader<'a> {
    pub file: &'a [u8],
    pub reader: Reader,
}

impl<'a> FilmReader<'a> {
    // A reader at the first entry of an accepted file; of another it carries the refusal.
    pub fn start(file: &'a [u8]) -> FilmReader<'a>
        ensures { result ≡ started file.entry }
    {
        FilmReader {
            file,
            reader: cursor::start(file),
        }
    }

    // The entry at the reader's position, which moves past it; at the end it says so, and stays there. It is no iterator, since a
    // refused file gives its refusal at every call.
    pub fn next(&mut self) -> Result<Option<Entry>, u32>
        ensures { (result ≡ entry_here self.old) × (self.new ≡ moved self.old) }
    {
        cursor::next(self.file, &mut self.reader)
    }
}
