// Line feeds: how many there are, and where a line ends.
ghost use Rattle.std.specs.Prelude.{cond, ◌≡◌, ◌+◌, ◌/◌, ◌<◌, ◌≤◌, ltb, length, unwrap_or, IfSome};
ghost use Rattle.std.specs.Int.Count.{count_trailing_zeros};
ghost use Rattle.answers.specs.Steps.{feeds, feed_bits, first_feed, EndsAt};

// Eight bytes as a number, the first the lowest, with 128 in the place of each line feed and 0 in that of any other byte.
fn feed_bits(eight: &[u8; 8]) -> u64
    ensures { result ≡ feed_bits eight.now }
{
    // Each byte is 0 for a line feed, and for no other.
    let differs = u64::from_le_bytes(*eight) ^ 0x0a0a0a0a0a0a0a0a;
    // Each byte is at least 128 where one of the seven low bits differs; none carries into the next byte.
    let low_differs = (differs & 0x7f7f7f7f7f7f7f7f) + 0x7f7f7f7f7f7f7f7f;
    !(low_differs | differs) & 0x8080808080808080
}

// How many of eight bytes are line feeds.
#[tactic(auto, using(crate::proofs::feed::Bits::count_bits))]
fn feeds_in(eight: &[u8; 8]) -> usize
    ensures { result ≡ feeds eight.now }
{
    feed_bits(eight).count_ones() as usize
}

// How many line feeds there are.
pub(crate) fn count_feeds(bytes: &[u8]) -> usize
    ensures { result ≡ feeds bytes.now }
{
    let (eights, rest) = bytes.as_chunks::<8>();
    let counted: usize = eights.iter().map(feeds_in).sum();
    counted + rest.iter().filter(|&&byte| byte == b'\n').count()
}

// How many of the eight bytes of a number, from the lowest on, are 0 before the first that is not; 8, where all are, is a count as
// the others are, to which before_feed adds, so it is no missing place.
fn zero_bytes(number: u64) -> usize
    ensures { result ≡ count_trailing_zeros 64 number / 8 }
{
    number.trailing_zeros() as usize / 8
}

// How many of eight bytes and those after them stand before the first line feed, by how many of each do: the first number, or where that is 8, both together.
fn before_feed(eight: usize, after: usize) -> usize
    requires { after ≤ 16 }
    ensures { result ≡ cond (ltb eight 8) eight (8 + after) }
{
    if eight < 8 { eight } else { 8 + after }
}

// The place of the first line feed of twenty-four bytes, where there is one.
fn first_feed(bytes: &[u8; 24]) -> Option<usize>
    ensures { result ≡ first_feed bytes.now }
{
    let (eights, _) = bytes.as_chunks::<8>();
    let first = feed_bits(&eights[0]);
    let second = feed_bits(&eights[1]);
    let third = feed_bits(&eights[2]);
    if first | second | third == 0 {
        return None;
    }
    let later = before_feed(zero_bytes(second), zero_bytes(third));
    Some(before_feed(zero_bytes(first), later))
}

// The place of the first line feed, looked for byte by byte, where there is one.
fn first_by_bytes(bytes: &[u8]) -> Option<usize>
    ensures { result ≡ first_feed bytes.now }
{
    bytes.iter().position(|&byte| byte == b'\n')
}

// Where a line feed ends the line that begins at a place; none where the line ends with the bytes.
pub(crate) fn end_from(bytes: &[u8], start: usize) -> Option<usize>
    requires { start ≤ length bytes.now }
    ensures ends { EndsAt bytes.now start (unwrap_or result (length bytes.now)) }
    ensures inside { IfSome result (λ end. end < length bytes.now) }
{
    let mut i = start;
    // Most lines end within the first twenty-four bytes, so that the first turn finds the end, however long the line is.
    while let Some(part) = bytes[i..].first_chunk::<24>() {
        if let Some(before) = first_feed(part) {
            return Some(i + before);
        }
        i += part.len();
    }
    let before = first_by_bytes(&bytes[i..])?;
    Some(i + before)
}
