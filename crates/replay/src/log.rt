// A log that is lent, and the words written to it.
ghost use Rattle.std.specs.Prelude.{◌≡◌, ◌+◌, ◌-◌, ◌*◌, ◌≤◌, length};
ghost use Rattle.replay.specs.Log.{answer_words, lines_words, Appended};

use model::{Answer, Line};

// words of an answer
pub const ANSWER_WORDS: usize = 3;

// words of a report's line
pub const LINE_WORDS: usize = 4;

// The lent words, and the place after those that were written.
#[derive(Drop)]
pub struct Log<'a> {
    pub words: &'a mut [u64],
    pub at: usize,
}

impl Log<'_> {
    // How many words still have a place.
    pub fn room(&self) -> usize
        requires { self.now.at ≤ length self.now.words.now }
        ensures { result ≡ length self.now.words.now - self.now.at }
    {
        self.words.len() - self.at
    }

    // Appends words for which there is room.
    fn append(&mut self, words: &[u64])
        requires { self.old.at + length words.now ≤ length self.old.words.now }
        ensures { Appended self.old words.now self.new }
    {
        let end = self.at + words.len();
        self.words[self.at..end].copy_from_slice(words);
        self.at = end;
    }

    // Appends an answer: the refusal's number or 0, and what an accepted call gives.
    pub fn append_answer(&mut self, answer: Answer)
        requires { self.old.at + 3 ≤ length self.old.words.now }
        ensures { Appended self.old (answer_words answer) self.new }
    {
        let words: [u64; ANSWER_WORDS] = match answer {
            Answer::Refused(number) => [number as u64, 0, 0],
            Answer::Booked(start) => [0, start, 0],
            Answer::Played(films, cabs) => [0, films, cabs],
            Answer::Opened | Answer::Dropped => [0, 0, 0],
        };
        self.append(&words);
    }

    // Appends the lines of a report.
    pub fn append_lines(&mut self, lines: &[Line])
        requires { self.old.at + 4 * length lines.now ≤ length self.old.words.now }
        ensures { Appended self.old (lines_words lines.now) self.new }
    {
        for line in lines {
            self.append(&[line.name as u64, line.read, line.send, line.held]);
        }
    }
}
