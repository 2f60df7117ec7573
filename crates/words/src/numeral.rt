// Numerals of the line.
ghost use Rattle.std.specs.Prelude.{[], ◌∷◌, ◌-◌, ◌≤◌, min, SomeIff, Some, None};
ghost use Rattle.words.specs.Numeral.{digit, numerals};
ghost use Rattle.words.specs.Told.{Told};

// The value of a digit.
fn digit_value(byte: u8) -> Option<u32>
    ensures { SomeIff result ((digit 0 ≤ byte) × (byte ≤ digit 9)) (byte - digit 0) }
{
    match byte {
        b'0'..=b'9' => Some(u32::from(byte - b'0')),
        _ => None,
    }
}

// The value of a digit that a numeral may begin with.
fn first_digit(byte: u8) -> Option<u32>
    ensures { SomeIff result ((digit 1 ≤ byte) × (byte ≤ digit 9)) (byte - digit 0) }
{
    digit_value(byte).filter(|&value| value > 0)
}

// The number from 1 to high, of at most four digits, whose numeral the bytes are.
pub fn number_of(text: &[u8], high: u64) -> Option<u64>
    ensures { Told (numerals high) Some None text.now result }
{
    let [first, rest @ ..] = text else {
        return None;
    };
    if rest.len() > 3 {
        return None;
    }
    let mut n = u64::from(first_digit(*first)?);
    for &byte in rest {
        n = 10 * n + u64::from(digit_value(byte)?);
    }
    (n <= high).then_some(n)
}

// The number from 1 to high, of one or two digits, whose numeral the bytes are.
pub fn short_number_of(text: &[u8], high: u64) -> Option<u64>
    ensures { Told (numerals (min high 99)) Some None text.now result }
{
    let n = match text {
        [ones] => first_digit(*ones)?,
        [tens, ones] => 10 * first_digit(*tens)? + digit_value(*ones)?,
        _ => return None,
    };
    let n = u64::from(n);
    (n <= high).then_some(n)
}

// The number of four digits, the first not 0.
pub fn four_digits(a: u8, b: u8, c: u8, d: u8) -> Option<u32>
    ensures { Told (numerals 9999) Some None (a ∷ b ∷ c ∷ d ∷ []) result }
{
    Some(1000 * first_digit(a)? + 100 * digit_value(b)? + 10 * digit_value(c)? + digit_value(d)?)
}
