// The lines that hallrun prints, each written into a lent buffer.
ghost use Rattle.std.specs.Prelude.{◌≡◌, ◌+◌, ◌*◌, ◌≤◌, length};
ghost use Rattle.group.specs.Widths.{slot_bytes};
ghost use Rattle.lines.specs.Output.{number_line, field_line, record_line};
ghost use Rattle.lines.specs.Put.{number_bytes, field_line_bytes, record_line_bytes, argument_put, Put};

use crate::digits::{put_byte, put_bytes};

// The line of a granted read, and of a record: unit, rank, key and field, two digits for each byte, with a byte behind each.
const FIELD_LINE: usize = 3 + 2 * group::FIELD;

const KEY_AT: usize = 6;

const FIELD_AT: usize = KEY_AT + 2 * group::KEY + 1;

pub const RECORD_LINE: usize = FIELD_AT + 2 * group::FIELD + 1;

// The line of a number, at the front of a buffer; how long it is.
pub fn put_number(out: &mut [u8], n: u8) -> usize
    requires { number_bytes ≤ length out.old }
    ensures { Put (number_line n) out.old out.new result }
{
    if n < 10 {
        out[0] = b'0' + n;
        out[1] = b'\n';
        return 2;
    }
    out[0] = b'0' + n / 10;
    out[1] = b'0' + n % 10;
    out[2] = b'\n';
    3
}

// An argument of digits at a place, and the byte behind it.
fn put_argument(line: &mut [u8], at: usize, from: &[u8], behind: u8)
    requires { at + (2 * length from.now + 1) ≤ length line.old }
    ensures { line.new ≡ argument_put line.old at from.now behind }
{
    let end = at + 2 * from.len();
    put_bytes(&mut line[at..end], from);
    line[end] = behind;
}

// The line of a granted read, at the front of a buffer; how long it is.
pub fn put_field(out: &mut [u8], field: &[u8; group::FIELD]) -> usize
    requires { field_line_bytes ≤ length out.old }
    ensures { Put (field_line field.now) out.old out.new result }
{
    out[0] = b'0';
    out[1] = b' ';
    put_argument(out, 2, field, b'\n');
    FIELD_LINE
}

// The line of a record in a granted list.
fn put_record(line: &mut [u8], unit: u8, rank: u8, slot: &[u8])
    requires { (length line.old ≡ record_line_bytes) × (length slot.now ≡ slot_bytes) }
    ensures { line.new ≡ record_line unit rank slot.now }
{
    put_argument(line, 0, &[unit], b' ');
    put_argument(line, 3, &[rank], b' ');
    put_argument(line, KEY_AT, &slot[0..group::KEY], b' ');
    put_argument(line, FIELD_AT, &slot[group::KEY..group::SLOT], b'\n');
}

pub fn record_line(unit: u8, rank: u8, slot: &[u8]) -> [u8; RECORD_LINE]
    requires { length slot.now ≡ slot_bytes }
    ensures { result ≡ record_line unit rank slot.now }
{
    let mut line = [0u8; RECORD_LINE];
    put_record(&mut line, unit, rank, slot);
    line
}
