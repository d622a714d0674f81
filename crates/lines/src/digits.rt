// Capital hexadecimal digits.
ghost use Rattle.std.specs.Prelude.{◌≡◌, ◌*◌, ◌≤◌, ◌<◌, length, MatchOption};
ghost use Rattle.lines.specs.Digits.{field_digits, digit, digit_of, hex, hex_bytes};
ghost use Rattle.lines.specs.Found.{number_of, field_of};

// The value of a digit.
pub fn digit_value(c: u8) -> Option<u8>
    ensures { MatchOption result (digit c ≡ 16) (λ value. (value ≡ digit c) × (value < 16)) }
{
    match c {
        b'0'..=b'9' => Some(c - b'0'),
        b'A'..=b'F' => Some(c - b'A' + 10),
        _ => None,
    }
}

// The digit of a value below 16.
pub fn digit_byte(v: u8) -> u8
    requires { v < 16 }
    ensures { result ≡ digit_of v }
{
    if v < 10 { b'0' + v } else { b'A' + (v - 10) }
}

// The number that digits write, the highest first.
pub fn number(digits: &[u8]) -> Option<u32>
    requires { length digits.now ≤ 8 }
    ensures { result ≡ number_of digits.now }
{
    let mut value = 0;
    for c in digits {
        value = value * 16 + u32::from(digit_value(*c)?);
    }
    Some(value)
}

// The field that digits write, two for each byte.
pub fn read_field(digits: &[u8]) -> Option<[u8; group::FIELD]>
    requires { length digits.now ≡ field_digits }
    ensures { result ≡ field_of digits.now }
{
    let mut field = [0u8; group::FIELD];
    for i in 0..group::FIELD {
        field[i] = number(&digits[2 * i..2 * i + 2])? as u8;
    }
    Some(field)
}

// The two digits of a byte.
pub fn put_byte(into: &mut [u8], x: u8)
    requires { length into.old ≡ 2 }
    ensures { into.new ≡ hex 2 x }
{
    into[0] = digit_byte(x / 16 % 16);
    into[1] = digit_byte(x % 16);
}

// The digits of each byte, one behind the other.
pub fn put_bytes(into: &mut [u8], from: &[u8])
    requires { length into.old ≡ 2 * length from.now }
    ensures { into.new ≡ hex_bytes (length from.now) from.now }
{
    for i in 0..from.len() {
        put_byte(&mut into[2 * i..2 * i + 2], from[i]);
    }
}
