// The feast words: each has a slot, told by two of its bytes and its length, and is then compared with what the slot holds. A word has 4 to 12 bytes, so
// that its first four, its last four and the four in its middle cover it; as numbers they have the first byte lowest, and so read backwards.
ghost use Rattle.std.specs.Prelude.{◌≡◌, ◌+◌, ◌*◌, ◌%◌, ◌≤◌, Some, None};
ghost use Rattle.words.specs.Steps.{outer_in, inner_in, feast_slot};
ghost use Rattle.words.specs.Told.{Told};
ghost use Rattle.words.specs.Word.{feast_word, feast_words};

use crate::text::is_word;

// What a feast's number is multiplied by in inner_in.
const FEAST: u64 = 1 << 40;

// The first four and the last four bytes of the word in a slot, as one number.
// An empty slot's 0 is told by no bytes of a word, so it needs no case of its own. Two tables and not one of pairs, as of wrappers: each match is
// one table of numbers for the compiler.
#[tactic(auto, unfolding(crate::specs::Steps::four, crate::specs::Steps::held), using(crate::proofs::word::Laws::no_feast))]
fn outer_in(slot: usize) -> u64
    ensures { result ≡ outer_in feast_slot feast_word 48 slot }
{
    match slot {
        7 => 0x746976616f766e69, // invocavit
        8 => 0x65726563696d6572, // reminiscere
        9 => 0x616d697361786573, // sexagesima
        10 => 0x77656d6f74726162, // bartholomew
        11 => 0x7765726472646e61, // andrew
        13 => 0x73616d7469726863, // christmas
        15 => 0x696c75636c75636f, // oculi
        16 => 0x73656d61656d616a, // james
        18 => 0x73616d6f6d6f6874, // thomas
        21 => 0x616e6563616e6563, // cena
        27 => 0x6b72616d6b72616d, // mark
        35 => 0x7365687365687361, // ashes
        37 => 0x616964726573696d, // misericordia
        38 => 0x657261747465616c, // laetare
        40 => 0x7265746565746570, // peter
        44 => 0x74736f63746e6570, // pentecost
        45 => 0x7265747374736165, // easter
        49 => 0x6e6f697365637361, // ascension
        50 => 0x656b756c656b756c, // luke
        51 => 0x73746e696e696173, // saints
        53 => 0x6c6561686863696d, // michael
        54 => 0x7473697474706162, // baptist
        59 => 0x6e6974727472616d, // martin
        61 => 0x6e6f697363726963, // circumcision
        63 => 0x746e657665766461, // advent
        69 => 0x65746174746e6163, // cantate
        70 => 0x616369646964756a, // judica
        74 => 0x70696c696c696870, // philip
        75 => 0x6e6f6d696f6d6973, // simon
        77 => 0x6f646f6d73617571, // quasimodo
        79 => 0x6e6f6974756e6e61, // annunciation
        82 => 0x6574616c6962756a, // jubilate
        84 => 0x6576656361726170, // parasceve
        86 => 0x65636e657275616c, // laurence
        87 => 0x6968696d6f747365, // estomihi
        88 => 0x736d6c616d6c6170, // palms
        89 => 0x616d697374706573, // septuagesima
        93 => 0x7375707270726f63, // corpus
        95 => 0x776568747474616d, // matthew
        97 => 0x6e6f697475737361, // assumption
        101 => 0x73616d65646e6163, // candlemas
        102 => 0x7974696e6e697274, // trinity
        104 => 0x73616c6f6863696e, // nicholas
        105 => 0x796e616870697065, // epiphany
        111 => 0x736169687474616d, // matthias
        121 => 0x6964756175617865, // exaudi
        124 => 0x6574616761676f72, // rogate
        125 => 0x656e656c6467616d, // magdalene
        _ => 0,
    }
}

// The four bytes in the middle of the word in a slot, 2^32 times its length and 2^40 times the number of its feast, as one number; 0 where there is none,
// as in outer_in.
#[tactic(auto, unfolding(crate::specs::Steps::four, crate::specs::Steps::held), using(crate::proofs::word::Laws::no_feast))]
fn inner_in(slot: usize) -> u64
    ensures { result ≡ inner_in feast_slot feast_word 48 slot }
{
    match slot {
        7 => 0x050961636f76, // invocavit
        8 => 0x060b73696e69, // reminiscere
        9 => 0x020a73656761, // sexagesima
        10 => 0x250b6c6f6874, // bartholomew
        11 => 0x2c066572646e, // andrew
        13 => 0x2f0974736972, // christmas
        15 => 0x07056c75636f, // oculi
        16 => 0x2205656d616a, // james
        18 => 0x2e06616d6f68, // thomas
        21 => 0x0b04616e6563, // cena
        27 => 0x1d046b72616d, // mark
        35 => 0x040565687361, // ashes
        37 => 0x0f0c6f636972, // misericordia
        38 => 0x080761746561, // laetare
        40 => 0x200565746570, // peter
        44 => 0x15096365746e, // pentecost
        45 => 0x0d0665747361, // easter
        49 => 0x1309736e6563, // ascension
        50 => 0x2804656b756c, // luke
        51 => 0x2a06746e6961, // saints
        53 => 0x270761686369, // michael
        54 => 0x1f0769747061, // baptist
        59 => 0x2b0669747261, // martin
        61 => 0x180c69636d75, // circumcision
        63 => 0x30066e657664, // advent
        69 => 0x110761746e61, // cantate
        70 => 0x090663696475, // judica
        74 => 0x1e06696c6968, // philip
        75 => 0x29056f6d6973, // simon
        77 => 0x0e096d697361, // quasimodo
        79 => 0x1c0c6169636e, // annunciation
        82 => 0x1008616c6962, // jubilate
        84 => 0x0c0963736172, // parasceve
        86 => 0x23086e657275, // laurence
        87 => 0x0308696d6f74, // estomihi
        88 => 0x0a056d6c6170, // palms
        89 => 0x010c65676175, // septuagesima
        93 => 0x17067570726f, // corpus
        95 => 0x260768747461, // matthew
        97 => 0x240a74706d75, // assumption
        101 => 0x1a09656c646e, // candlemas
        102 => 0x1607696e6972, // trinity
        104 => 0x2d086c6f6863, // nicholas
        105 => 0x190861687069, // epiphany
        111 => 0x1b0869687474, // matthias
        121 => 0x140664756178, // exaudi
        124 => 0x12067461676f, // rogate
        125 => 0x21096c616467, // magdalene
        _ => 0,
    }
}

// The slot of two bytes and a length, by factors found by trial, with which no two feast words share one.
fn slot(first: u8, third: u8, count: usize) -> usize
    requires { count ≤ 12 }
    ensures { result ≡ (35 * first + 10 * third + 16 * count) % 128 }
{
    (35 * usize::from(first) + 10 * usize::from(third) + 16 * count) % 128
}

// The number of the feast whose word it is.
pub fn feast_of_word(word: &[u8]) -> Option<u64>
    ensures { Told feast_words Some None word.now result }
{
    let [first, _, third, _, ..] = word else {
        return None;
    };
    let length = word.len();
    if length > 12 {
        return None;
    }
    let slot = slot(*first, *third, length);
    let inner = inner_in(slot);
    is_word(word, outer_in(slot), inner % FEAST).then_some(inner / FEAST)
}
