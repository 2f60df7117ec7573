// A 32-bit number as four bytes, low byte first.
ghost use Rattle.std.specs.Prelude.{◌≡◌};
ghost use Rattle.places.specs.Number.{with_number};

// Puts a number into a buffer, from the byte at on; where fewer than four bytes stand there, nothing is put.
// The buffer comes with a place, since the contract speaks of the one as of the other.
#[tactic(auto, unfolding(crate::specs::Number::with_number))]
pub fn put_number(buffer: &mut [u8], at: usize, number: u32)
    ensures { buffer.new ≡ with_number buffer.old at number }
{
    if buffer.len().saturating_sub(at) >= 4 {
        // One by one, since the library's copy takes pointers for numbers, which the build for browsers may not.
        let bytes = number.to_le_bytes();
        buffer[at] = bytes[0];
        buffer[at + 1] = bytes[1];
        buffer[at + 2] = bytes[2];
        buffer[at + 3] = bytes[3];
    }
}
