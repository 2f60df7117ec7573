// UTF-8, as a whole text and by its first bytes.
ghost use Rattle.std.specs.Prelude.{◌≡◌};
ghost use Rattle.marks.specs.Utf8.{TellsUtf8, starts};

// Whether bytes are UTF-8.
pub fn is_utf8(text: &[u8]) -> bool
    ensures { TellsUtf8 text.now result }
{
    std::str::from_utf8(text).is_ok()
}

// How many bytes do not begin with the bits 0b10, which in UTF-8 are as many as the characters.
#[tactic(auto, using(crate::proofs::utf8::Laws::counted, crate::proofs::utf8::Laws::passed), unfolding(crate::specs::Utf8::starts))]
pub(crate) fn count_starts(text: &[u8]) -> usize
    ensures { result ≡ starts text.now }
{
    let mut count = 0;
    // `filter` with `count` takes twice as long
    for &byte in text {
        if byte / 64 != 2 {
            count += 1;
        }
    }
    count
}
