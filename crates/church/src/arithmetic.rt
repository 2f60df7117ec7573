// The limit by arithmetic, from golden number and hundreds alone.
ghost use Rattle.std.specs.Prelude.{◌≡◌, ◌≤◌};
ghost use Rattle.church.specs.Arithmetic.{z_of, settled, gregorian_limit, julian_limit};

// A limit from 21 to 50 with its two exceptions: 50, and 49 above golden number 11.
fn settled_limit(golden_number: u64, brought: u64) -> u64
    ensures { result ≡ settled golden_number brought }
{
    let at_most_49 = if brought == 50 { 49 } else { brought };
    // A limit that was 50 did not come to 49 directly. A match on both would branch, where these only choose.
    if brought == 49 && golden_number > 11 {
        48
    } else {
        at_most_49
    }
}

// The Gregorian limit of a golden number, its b, and a year's whole hundreds, as many as a 64-bit year can have.
#[tactic(auto, using(crate::proofs::arithmetic::Laws::gregorian_closed))]
pub(crate) fn gregorian_limit(golden_number: u64, b: u64, hundreds: u64) -> u64
    requires { (b ≤ 29) × (hundreds ≤ 184467440737095516) }
    ensures { result ≡ gregorian_limit golden_number (z_of hundreds) b }
{
    let z = 3 + hundreds - hundreds / 4 - (8 * hundreds + 13) / 25;
    // Adding 9 takes 21 away, by thirties.
    let brought = 21 + (44 + z - b + 9) % 30;
    settled_limit(golden_number, brought)
}

// The Julian limit of a golden number's b.
pub(crate) fn julian_limit(b: u64) -> u64
    requires { b ≤ 29 }
    ensures { result ≡ julian_limit b }
{
    if b > 26 { 77 - b } else { 47 - b }
}
