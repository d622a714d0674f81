// The sum of a key's hexadecimal digits, without a loop over digits.
ghost use Rattle.std.specs.Prelude.{◌≡◌, ◌%◌, ◌≤◌};
ghost use Rattle.model.specs.Units.{digit_sum};

// A number whose lowest byte is the digit sum of a key. The two digits of each byte are added side by side in one word, then the bytes two and two: no
// byte goes above 120, so none carries into the next. Shifts and sums alone, so that the compiler may take four keys at a time.
pub fn folded(key: u32) -> u32
    ensures { result % 256 ≡ digit_sum key }
{
    let bytes = (key & 0x0f0f_0f0f) + ((key >> 4) & 0x0f0f_0f0f);
    let pairs = bytes + bytes / 256;
    pairs + pairs / 65536
}

// The sum of the eight hexadecimal digits of a key.
pub fn digit_sum(key: u32) -> u32
    ensures { (result ≡ digit_sum key) × (result ≤ 120) }
{
    folded(key) % 256
}
