// A command's answer and report as text.
ghost use Rattle.std.specs.Prelude.{◌≡◌, ◌≤◌, length};
ghost use Rattle.limits.specs.Bounds.{hall_places};
ghost use Rattle.text.specs.Text.{answer_text};
ghost use Rattle.text.specs.Write.{max_text};
ghost use Rattle.text.specs.Digits.{output_bytes};
ghost use Rattle.console.specs.Contract.{reply_text, in_front};

use model::{Answer, Line};
use text::{write_answer, write_line};

// Writes an answer's line to the front of `out`. Gives how many bytes were written.
pub fn write_first(out: &mut [u8], name: u32, round: u64, answer: Answer) -> usize
    requires { max_text ≤ length out.old }
    ensures buffer { out.new ≡ in_front (answer_text name round answer) out.old }
    ensures count { result ≡ length (answer_text name round answer) }
{
    write_answer(out, 0, name, round, answer).unwrap()
}

// Writes the answer's line and the lines of its report to the front of `out`. Gives how many bytes were written.
pub fn write_reply(out: &mut [u8], name: u32, round: u64, answer: Answer, lines: &[Line]) -> usize
    requires lines { length lines.now ≤ hall_places }
    requires room { output_bytes ≤ length out.old }
    ensures buffer { out.new ≡ in_front (reply_text name round answer lines.now) out.old }
    ensures count { result ≡ length (reply_text name round answer lines.now) }
{
    let mut at = write_first(out, name, round, answer);
    for line in lines {
        at = write_line(out, at, *line).unwrap();
    }
    at
}
