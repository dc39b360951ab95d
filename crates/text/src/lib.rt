// The output text, written into a lent buffer from a place on.
#![tactic(auto)]

ghost use Rattle.std.specs.Prelude.{◌≡◌, ◌++◌, ◌≤◌, length};
ghost use Rattle.limits.specs.Bounds.{max_digits};
ghost use Rattle.text.specs.Text.{fields, end, answer_text, line_text};
ghost use Rattle.text.specs.Write.{max_text, buffer_after, place_after};

use arrayvec::ArrayString;
use itoa::Buffer;
use model::{Answer, Line};

// bytes of an output line, at most
pub const MAX_TEXT: usize = 84;

// A line: its first field, and up to three numbers, each after a space.
#[tactic(auto, using(crate::proofs::Lines::fields_more))]
fn line_of(first: &str, numbers: &[u64]) -> ArrayString<MAX_TEXT>
    requires first { length first.now ≤ max_digits }
    requires numbers { length numbers.now ≤ 3 }
    ensures { result.bytes ≡ fields first.now numbers.now ++ end }
{
    let mut line = ArrayString::new();
    line.push_str(first);
    for number in numbers {
        line.push_str(" ");
        line.push_str(Buffer::new().format(*number));
    }
    line.push_str("\n");
    line
}

// The line that answers a command.
#[tactic(auto, unfolding(crate::specs::Text::answer_fields))]
fn answer_line(name: u32, round: u64, answer: Answer) -> ArrayString<MAX_TEXT>
    ensures { result.bytes ≡ answer_text name round answer }
{
    let name = u64::from(name);
    match answer {
        Answer::Refused(number) => line_of("NO", &[u64::from(number)]),
        Answer::Opened => line_of("OPENED", &[]),
        Answer::Booked(start) => line_of("BOOKED", &[name, start]),
        Answer::Dropped => line_of("DROPPED", &[name]),
        Answer::Played(films, cabs) => line_of("ROUND", &[round, films, cabs]),
    }
}

// Writes a line, and gives the place after it. With no room for a line of the longest kind nothing is written.
#[tactic(auto, unfolding(crate::specs::Write::place_after, crate::specs::Write::buffer_after, crate::specs::Write::placed))]
fn write(out: &mut [u8], at: usize, line: &str) -> Option<usize>
    requires { length line.now ≤ max_text }
    ensures value { result ≡ place_after out.old at line.now }
    ensures out_after { out.new ≡ buffer_after out.old at line.now }
{
    if out.len() < at || out.len() - at < MAX_TEXT {
        return None;
    }
    let end = at + line.len();
    out[at..end].copy_from_slice(line.as_bytes());
    Some(end)
}

// Writes the line that answers a command: the name is the command's, the round the one that was played.
pub fn write_answer(
    out: &mut [u8],
    at: usize,
    name: u32,
    round: u64,
    answer: Answer,
) -> Option<usize>
    ensures value { result ≡ place_after out.old at (answer_text name round answer) }
    ensures out_after { out.new ≡ buffer_after out.old at (answer_text name round answer) }
{
    write(out, at, answer_line(name, round, answer).as_str())
}

// Writes a line of a report.
#[tactic(auto, using(crate::proofs::Digits::decimal_printed))]
pub fn write_line(out: &mut [u8], at: usize, line: Line) -> Option<usize>
    ensures value { result ≡ place_after out.old at (line_text line) }
    ensures out_after { out.new ≡ buffer_after out.old at (line_text line) }
{
    let text = line_of(
        Buffer::new().format(line.name),
        &[line.read, line.send, line.held],
    );
    write(out, at, text.as_str())
}
