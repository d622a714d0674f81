// A line that hallrun reads: a letter and its arguments.
ghost use Rattle.std.specs.Prelude.{◌≡◌, ◌≤◌, drop, MatchOption};
ghost use Rattle.group.specs.Widths.{field_bytes};
ghost use Rattle.lines.specs.Digits.{number_at, bytes_at};
ghost use Rattle.lines.specs.Found.{Spaced, Numbered, Keyed};
ghost use Rattle.lines.specs.Line.{parsed};
ghost use Rattle.lines.specs.Spoken.{spoken};

use crate::digits::{number, read_field};

const KEY_DIGITS: usize = 2 * group::KEY;

const FIELD_DIGITS: usize = 2 * group::FIELD;

// What a line asks for, with the layout's b, the unit, the group or the key that it names, and its field.
#[derive(Clone, Copy)]
pub enum Command {
    LayOut(u32),
    Teach(u32, [u8; group::FIELD]),
    Correct(u32, [u8; group::FIELD]),
    Erase(u32),
    Read(u32),
    UnitOut(u32),
    Repair(u32),
    Grow,
    Shrink,
    Raise,
    List,
}

// The n bytes behind a space, with nothing behind them.
fn behind_space(text: &[u8], n: usize) -> Option<&[u8]>
    ensures { MatchOption result (Spaced text.now n → ⊥) (λ x. Spaced text.now n × (x.now ≡ drop 1 text.now)) }
{
    match text {
        [b' ', rest @ ..] if rest.len() == n => Some(rest),
        _ => None,
    }
}

// The number that n digits behind a space write, with nothing behind them.
fn number_behind(text: &[u8], n: usize) -> Option<u32>
    requires { n ≤ 8 }
    ensures { MatchOption result (Numbered text.now n → ⊥) (λ value. Numbered text.now n × (value ≡ number_at text.now 1 n)) }
{
    number(behind_space(text, n)?)
}

// A key and a field, each behind a space, with nothing behind them.
fn key_and_field(text: &[u8]) -> Option<(u32, [u8; group::FIELD])>
    ensures { MatchOption result (Keyed text.now → ⊥)
        (λ x. Keyed text.now × (x.0 ≡ number_at text.now 1 8) × (x.1 ≡ bytes_at text.now 10 field_bytes)) }
{
    let (key, field) = text.split_at_checked(1 + KEY_DIGITS)?;
    let key = number_behind(key, KEY_DIGITS)?;
    Some((key, read_field(behind_space(field, FIELD_DIGITS)?)?))
}

// Reads a line; its end is not part of it.
pub fn parse(line: &[u8]) -> Option<Command>
    ensures { spoken result ≡ parsed line.now }
{
    let (letter, arguments) = line.split_first()?;
    match *letter {
        b'L' => number_behind(arguments, 2).map(Command::LayOut),
        b'T' => key_and_field(arguments).map(|(key, field)| Command::Teach(key, field)),
        b'C' => key_and_field(arguments).map(|(key, field)| Command::Correct(key, field)),
        b'E' => number_behind(arguments, KEY_DIGITS).map(Command::Erase),
        b'R' => number_behind(arguments, KEY_DIGITS).map(Command::Read),
        b'O' => number_behind(arguments, 2).map(Command::UnitOut),
        b'F' => number_behind(arguments, 2).map(Command::Repair),
        b'G' => arguments.is_empty().then_some(Command::Grow),
        b'S' => arguments.is_empty().then_some(Command::Shrink),
        b'K' => arguments.is_empty().then_some(Command::Raise),
        b'P' => arguments.is_empty().then_some(Command::List),
        _ => None,
    }
}
