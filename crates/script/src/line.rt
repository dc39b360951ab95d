// Lines of decimal numbers, with one space between them.
ghost use Rattle.std.specs.Prelude.{◌≡◌, IfOk};
ghost use Rattle.script.specs.Checksum.{absorb};

use crate::checksum::absorb;
use std::io;

// A line in the making: the checksum so far, whether the line is printed, and whether a number stands on it.
#[derive(Drop)]
pub struct Line {
    pub sum: u64,
    pub printed: bool,
    pub begun: bool,
}

impl Line {
    // A line with no number yet.
    pub fn begin(sum: u64, printed: bool) -> Line
        ensures { result.sum ≡ sum }
    {
        Line {
            sum,
            printed,
            begun: false,
        }
    }

    // The line with one number more, which the checksum takes in.
    pub fn add(self, rt: &impl Print, value: u64) -> io::Result<Line>
        ensures { IfOk result (λ r. r.sum ≡ absorb self.sum value) }
    {
        if self.printed && self.begun {
            rt.print(" ")?;
        }
        if self.printed {
            rt.print(value)?;
        }
        Ok(Line {
            sum: absorb(self.sum, value),
            begun: true,
            ..self
        })
    }

    // The line as it was, with a value that the checksum takes in unprinted.
    pub fn hide(self, value: u64) -> Line
        ensures { result.sum ≡ absorb self.sum value }
    {
        Line {
            sum: absorb(self.sum, value),
            ..self
        }
    }

    // Ends the line. Gives its checksum.
    pub fn end(self, rt: &impl Print) -> io::Result<u64>
        ensures { IfOk result (λ sum. sum ≡ self.sum) }
    {
        if self.printed {
            rt.print("\n")?;
        }
        Ok(self.sum)
    }
}
