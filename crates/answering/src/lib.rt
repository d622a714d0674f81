// Answers the lines of a text: makes the call of each on one record store, and writes what it prints on standard output.
#![tactic(auto)]

mod calls;
mod records;

ghost use Rattle.std.specs.Prelude.{◌≡◌, ◌≤◌, length, take};
ghost use Rattle.lines.specs.Text.{lines_of};
ghost use Rattle.answering.specs.Command.{list_bytes};
ghost use Rattle.answering.specs.Said.{after_all, text_bytes, blank};
ghost use Rattle.answering.specs.Buffers.{answer_bytes, answered, answer_of, list_after, out_after};

use calls::{answer_list, answer_read};
use lines::line::Command;

// The file descriptor of standard output.
const STDOUT: i32 = 1;

// The number that a line prints that is not readable.
const UNREADABLE: u8 = 10;

// The buffers that a program lends beside its store and its text: the list, for 1,024 records, and the longest answer.
pub const LIST: usize = 1024 * group::SLOT;

pub const ANSWER: usize = 2 + 1024 * lines::output::RECORD_LINE;

// Answers a line into the output buffer, from its front on; how many bytes are to be printed.
pub fn answer(store: &mut [u8], list: &mut [u8], out: &mut [u8], text: &[u8]) -> usize
    requires { (length list.old ≡ list_bytes) × (answer_bytes ≤ length out.old) }
    ensures { answered result out.new store.new list.new
        ≡ answer_of store.old list.old out.old text.now }
{
    let Some(command) = lines::line::parse(text) else {
        return lines::output::put_number(out, UNREADABLE);
    };
    let answer = match command {
        Command::LayOut(b) => store::lay_out::lay_out(store, b),
        Command::Teach(key, field) => writing::teach(store, key, &field),
        Command::Correct(key, field) => writing::correct(store, key, &field),
        Command::Erase(key) => writing::erase(store, key),
        Command::Read(key) => return answer_read(store, key, out),
        Command::UnitOut(unit) => writing::unit_out(store, unit),
        Command::Repair(group) => repairing::repair(store, group),
        Command::Grow => splitting::grow(store),
        Command::Shrink => splitting::shrink(store),
        Command::Raise => splitting::raise(store),
        Command::List => return answer_list(store, list, out),
    };
    lines::output::put_number(out, refusal::number(answer))
}

// Answers every line of a text, one after the other, with one write for each: the bytes that `answer` says are to be printed.
pub fn answer_all(store: &mut [u8], list: &mut [u8], out: &mut [u8], text: &[u8])
    requires { (length list.old ≡ list_bytes) × (answer_bytes ≤ length out.old) }
    ensures left { store.new ≡ after_all store.old (lines_of text.now) }
    ensures listed { list.new ≡ list_after store.old list.old (lines_of text.now) }
    ensures output { out.new ≡ out_after store.old out.old (lines_of text.now) }
{
    let mut rest = text;
    while !rest.is_empty() { // no `split`: behind a final line feed it has one line more, an empty one
        let (line, behind) = lines::text::first_line(rest);
        let size = answer(store, list, out, line);
        io::write_all(STDOUT, &out[..size]);
        rest = behind;
    }
}

// Answers the lines in the first size bytes of a program's text buffer, from its store buffer of zeros on. It asks for the buffers of the program's
// definition (`hallrun`, specs/Said), in the length that it says, so that a program cannot lend others.
pub fn answer_input(store: &mut [u8], list: &mut [u8], out: &mut [u8], text: &[u8], size: usize)
    requires { (store.old ≡ blank) × (length text.now ≡ text_bytes) × (size ≤ text_bytes) × (length list.old ≡ list_bytes)
        × (answer_bytes ≤ length out.old) }
    ensures left { store.new ≡ after_all blank (lines_of (take size text.now)) }
    ensures listed { list.new ≡ list_after blank list.old (lines_of (take size text.now)) }
    ensures output { out.new ≡ out_after blank out.old (lines_of (take size text.now)) }
{
    answer_all(store, list, out, &text[..size]);
}
