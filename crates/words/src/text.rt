// Bytes and words.
ghost use Rattle.std.specs.Prelude.{◌&&◌, ◌≡◌, ◌+◌, ◌*◌, ◌≤◌, eqb, length};
ghost use Rattle.words.specs.Steps.{four, outer_of, inner_of};
ghost use Rattle.words.specs.Text.{BehindLast};

// What the higher of two fours in one number is multiplied by.
pub(crate) const HIGHER: u64 = 1 << 32;

// The four bytes from a place on as one number, the first the lowest; a text with a place, as the definition has it.
#[tactic(auto, unfolding(crate::specs::Steps::four))]
pub(crate) fn four_at(text: &[u8], at: usize) -> u32
    requires { at + 4 ≤ length text.now }
    ensures { result ≡ four text.now at }
{
    u32::from_le_bytes([text[at], text[at + 1], text[at + 2], text[at + 3]])
}

// Two such numbers as one.
pub(crate) fn joined(low: u32, high: u32) -> u64
    ensures { result ≡ low + 4294967296 * high }
{
    u64::from(low) + HIGHER * u64::from(high)
}

// Whether 4 to 12 bytes are the word with these two numbers: first and last four, and the middle four with how many they are.
pub(crate) fn is_word(text: &[u8], outer: u64, inner: u64) -> bool
    requires { (4 ≤ length text.now) × (length text.now ≤ 12) }
    ensures { result ≡ (eqb (outer_of text.now (length text.now)) outer && eqb (inner_of text.now (length text.now)) inner) }
{
    let count = text.len();
    joined(four_at(text, 0), four_at(text, count - 4)) == outer
        && joined(four_at(text, (count - 4) / 2), count as u32) == inner
}

// The place behind the last such byte, or the start where there is none.
pub fn behind_last(text: &[u8], byte: u8) -> usize
    ensures { BehindLast byte text.now result }
{
    text.iter().rposition(|&b| b == byte).map_or(0, |i| i + 1)
}
