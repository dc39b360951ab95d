// The line splitter: it takes bytes as they come and never holds more than a line.
#![tactic(auto)]

ghost use Rattle.std.specs.Prelude.{◌≡◌, ◌<◌, length};
ghost use Rattle.lines.specs.Lines.{started, continued, fed, held_of, command_held};
ghost use Rattle.lines.specs.Feeding.{fed_line, after_line};

use commands::{Command, parse};
use limits::bounds::MAX_LINE;

// The line that is being read: its first 200 bytes, how many of these are there, and whether it is longer. `ended` says that
// the line is complete, and that the next byte begins another one. An array and a length, since an `ArrayVec` cannot be copied.
#[derive(Clone, Copy)]
pub struct Splitter {
    pub bytes: [u8; MAX_LINE],
    pub length: usize,
    pub over: bool,
    pub ended: bool,
}

impl Splitter {
    // Before the first byte no line is begun.
    pub fn start() -> Splitter
        ensures { result ≡ started }
    {
        Splitter {
            bytes: [0u8; MAX_LINE],
            length: 0,
            over: false,
            ended: true,
        }
    }

    // After a complete line the next byte begins a new one.
    #[tactic(auto, unfolding(crate::specs::Lines::continued))]
    fn continue_line(&mut self)
        ensures { self.new ≡ continued self.old }
    {
        if self.ended {
            self.length = 0;
            self.over = false;
            self.ended = false;
        }
    }

    // Takes one byte. If the splitter then says `ended`, the byte was the end of a line, which the splitter holds.
    #[tactic(auto, unfolding(crate::specs::Lines::fed, crate::specs::Lines::appended))]
    pub fn feed(&mut self, byte: u8)
        ensures { self.new ≡ fed self.old byte }
    {
        self.continue_line();
        if byte == b'\n' {
            self.ended = true;
        } else if self.length < MAX_LINE {
            self.bytes[self.length] = byte;
            self.length += 1;
        } else {
            self.over = true;
        }
    }

    // Takes bytes up to the end of a line, or all of them. Gives the bytes that are left.
    pub fn feed_line<'a>(&mut self, bytes: &'a [u8]) -> &'a [u8]
        ensures splitter { self.new ≡ fed_line self.old bytes.now }
        ensures rest { result.now ≡ after_line self.old bytes.now }
        ensures moved { 0 < length bytes.now → length result.now < length bytes.now }
    {
        for (i, byte) in bytes.iter().enumerate() {
            self.feed(*byte);
            if self.ended {
                return &bytes[i + 1..];
            }
        }
        &[]
    }

    // The command that the line held is; a line of more than 200 bytes is none.
    pub fn command(&self) -> Option<Command>
        ensures { result ≡ command_held (held_of self.now) }
    {
        if self.over {
            None
        } else {
            parse(&self.bytes[..self.length.min(MAX_LINE)])
        }
    }
}
