// Wrappers: each without "on or" has a slot, told by three bytes, and is then compared with what the slot holds, as feast words are. Where "on or" stands
// behind a weekday, it is passed over, and what remains is told in the same way.
ghost use Rattle.std.specs.Prelude.{cond, ◌≡◌, ◌+◌, ◌*◌, ◌%◌, ◌≤◌, eqb, length, Some, None};
ghost use Rattle.words.specs.Steps.{wrapper_outer, wrapper_middle, count_by, MayLead, eight_of, more_by, numbered_wrapper, LeadTold};
ghost use Rattle.words.specs.Told.{Told};
ghost use Rattle.words.specs.Wrapper.{leadings, lead};

use crate::text::{HIGHER, four_at, joined};
use calendar::weekday::{Side, Start};

// What stands before a phrase and moves its day.
#[derive(Clone, Copy, PartialEq, Eq)]
pub enum Wrapper {
    Eve,
    Morrow,
    Octave,
    // The first such weekday on a side, where the starting day counts or not.
    First(Start, Side, u64),
}

// The wrapper at the start of a phrase, and the length of its words.
#[derive(Clone, Copy, PartialEq, Eq)]
pub struct Lead {
    pub wrapper: Wrapper,
    pub length: usize,
}

// The first four and the last four bytes of the words in a slot, as one number. These tables are not those of feast words, which hold a length
// and a feast where these hold a wrapper's number; an empty slot's 0 is told by no words, so it is no missing value.
#[tactic(auto, unfolding(crate::specs::Steps::four, crate::specs::Steps::held), using(crate::proofs::wrapper::Laws::no_wrapper))]
fn outer_in(slot: usize) -> u64
    ensures { result ≡ wrapper_outer slot }
{
    match slot {
        0 => 0x2065726f20657574, // tue before
        3 => 0x20726574206e7573, // sun after
        4 => 0x2065726f206e7573, // sun before
        5 => 0x2072657420756874, // thu after
        6 => 0x2065726f20756874, // thu before
        9 => 0x2072657420697266, // fri after
        10 => 0x2065726f20697266, // fri before
        12 => 0x20666f206174636f, // octave of
        15 => 0x20666f2020657665, // eve of
        19 => 0x2072657420746173, // sat after
        20 => 0x2065726f20746173, // sat before
        21 => 0x20666f2072726f6d, // morrow of
        23 => 0x20726574206e6f6d, // mon after
        24 => 0x2065726f206e6f6d, // mon before
        27 => 0x2072657420646577, // wed after
        28 => 0x2065726f20646577, // wed before
        31 => 0x2072657420657574, // tue after
        _ => 0,
    }
}

// The four bytes from the fourth on of the words in a slot, and 2^32 times the wrapper's number, as one number.
#[tactic(auto, unfolding(crate::specs::Steps::four, crate::specs::Steps::held), using(crate::proofs::wrapper::Laws::no_wrapper))]
fn middle_in(slot: usize) -> u64
    ensures { result ≡ wrapper_middle slot }
{
    match slot {
        0 => 0x0a66656220, // tue before
        3 => 0x0774666120, // sun after
        4 => 0x0f66656220, // sun before
        5 => 0x0474666120, // thu after
        6 => 0x0c66656220, // thu before
        9 => 0x0574666120, // fri after
        10 => 0x0d66656220, // fri before
        12 => 0x2020657661, // octave of
        15 => 0x0020666f20, // eve of
        19 => 0x0674666120, // sat after
        20 => 0x0e66656220, // sat before
        21 => 0x0820776f72, // morrow of
        23 => 0x0174666120, // mon after
        24 => 0x0966656220, // mon before
        27 => 0x0374666120, // wed after
        28 => 0x0b66656220, // wed before
        31 => 0x0274666120, // tue after
        _ => 0,
    }
}

// The slot of three bytes, by factors found by trial, with which no two wrappers without "on or" share one. That of feast words takes a length,
// and other bytes and factors, so one for both would be no plainer.
fn slot(second: u8, third: u8, fifth: u8) -> usize
    ensures { result ≡ (2 * second + 4 * third + fifth) % 32 }
{
    (2 * usize::from(second) + 4 * usize::from(third) + usize::from(fifth)) % 32
}

// How many bytes a wrapper's words have without "on or", by the four from the fourth on, so that the reading of what stands behind need not wait for a table.
#[tactic(auto, unfolding(crate::specs::Steps::four))]
fn count_by(middle: u64) -> usize
    ensures { result ≡ count_by middle }
{
    match middle {
        0x20666f20 => 7, // " of "
        0x66656220 => 11, // " bef"
        _ => 10,
    }
}

// Whether a wrapper may begin a phrase: a shortcut for phrases as short as a feast word, which have at most 12 bytes.
#[tactic(auto, unfolding(crate::specs::Steps::four), using(crate::proofs::wrapper::Laws::not_led, crate::proofs::wrapper::Laws::long_enough))]
fn may_lead(phrase: &[u8]) -> bool
    ensures { MayLead phrase.now result }
{
    if phrase.len() > 12 {
        return true;
    }
    let [_, _, _, fourth, ..] = phrase else {
        return false;
    };
    // morr, and octa
    if *fourth != b' ' && four_at(phrase, 0) != 0x72726f6d && four_at(phrase, 0) != 0x6174636f {
        return false;
    }
    phrase.len() > 6
}

// The eight bytes from the fourth on as one number, or four where a phrase is too short for a weekday's words with "on or"; the bound is that of may_lead.
fn eight_of(phrase: &[u8]) -> u64
    requires { 7 ≤ length phrase.now }
    ensures { result ≡ eight_of phrase.now }
{
    if phrase.len() < 13 {
        return u64::from(four_at(phrase, 3));
    }
    joined(four_at(phrase, 3), four_at(phrase, 7))
}

// How many bytes more than count_by tells a wrapper's words have, by these eight: 6 for "on or after", 7 for "on or before", which is longer by one; else 0.
// That is a count as these are, which is added without a test, so an Option would be no plainer.
#[tactic(auto, unfolding(crate::specs::Steps::four))]
fn more_by(eight: u64) -> usize
    ensures { result ≡ more_by eight }
{
    match eight {
        0x6120726f206e6f20 => 6, // " on or a"
        0x6220726f206e6f20 => 7, // " on or b"
        _ => 0,
    }
}

// The number where "on or" stands, and else 0, which is added as the number is.
fn if_counted(more: usize, number: usize) -> usize
    ensures { result ≡ cond (eqb more 0) 0 number }
{
    if more == 0 { 0 } else { number }
}

// The wrapper with a number.
fn numbered_wrapper(number: u64) -> Wrapper
    ensures { result ≡ numbered_wrapper number }
{
    let start = if number < 16 {
        Start::Uncounted
    } else {
        Start::Counted
    };
    let side = if number / 8 % 2 == 0 {
        Side::After
    } else {
        Side::Before
    };
    // Told by tests and no match, of which the compiler makes a choice without a branch.
    let first = Wrapper::First(start, side, number % 8);
    if number == 0 {
        Wrapper::Eve
    } else if number == 8 {
        Wrapper::Morrow
    } else if number == 32 {
        Wrapper::Octave
    } else {
        first
    }
}

// The wrapper whose words a phrase begins with, if they are those in the slot that its first bytes tell: they are compared with what the slot holds.
fn lead_by(phrase: &[u8], more: usize, count: usize) -> Option<Lead>
    requires { LeadTold phrase.now more count × (count ≤ length phrase.now) }
    ensures { Told leadings (λ x. Some (lead x)) None phrase.now result }
{
    let skip = if_counted(more, 6);
    let slot = slot(phrase[1], phrase[2], phrase[4 + skip]);
    if joined(four_at(phrase, 0), four_at(phrase, count - 4)) != outer_in(slot) {
        return None;
    }
    let told = middle_in(slot);
    if told % HIGHER != u64::from(four_at(phrase, 3 + skip)) {
        return None;
    }
    // Where the starting day counts, the number is by 16 greater.
    let number = told / HIGHER + if_counted(more, 16) as u64;
    Some(Lead {
        wrapper: numbered_wrapper(number),
        length: count,
    })
}

// The wrapper that a phrase begins with.
pub fn lead_of(phrase: &[u8]) -> Option<Lead>
    ensures { Told leadings (λ x. Some (lead x)) None phrase.now result }
{
    if !may_lead(phrase) {
        return None;
    }
    let eight = eight_of(phrase);
    let more = more_by(eight);
    let count = count_by(eight % HIGHER) + more;
    if phrase.len() < count {
        return None;
    }
    lead_by(phrase, more, count)
}
