// Lines of a text.
ghost use Rattle.std.specs.Prelude.{◌≡◌, ℕ, ◌+◌, ◌<◌, length, take, drop, MatchOption};
ghost use Rattle.buffer.specs.Bytes.{byte};
ghost use Rattle.lines.specs.Found.{line_end};

// Where a text's first byte 0A stands.
fn newline(text: &[u8]) -> Option<usize>
    ensures { MatchOption result ((k : ℕ) → k < length text.now → byte text.now k ≡ 10 → ⊥)
        (λ i. (i < length text.now) × (byte text.now i ≡ 10) × ((k : ℕ) → k < i → byte text.now k ≡ 10 → ⊥)) }
{
    text.iter().position(|c| *c == b'\n')
}

// The first line of a text, which ends at the first byte 0A or at the end of the text, and what stands behind its end.
pub fn first_line(text: &[u8]) -> (&[u8], &[u8])
    ensures line { result.0.now ≡ take (line_end text.now 0) text.now }
    ensures behind { result.1.now ≡ drop (line_end text.now 0 + 1) text.now }
{
    match newline(text) {
        Some(end) => (&text[..end], &text[end + 1..]),
        None => (text, &[]),
    }
}
