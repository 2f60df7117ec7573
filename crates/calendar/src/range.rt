// Ranges of numbers, both ends counted in.
ghost use Rattle.std.specs.Prelude.{◌≡◌};
ghost use Rattle.calendar.specs.Range.{between};

// Whether n lies from low to high, by the two tests that the definition has, which is as plain as a range's contains.
#[tactic(auto, unfolding(crate::specs::Range::between))]
pub fn is_between(low: u64, n: u64, high: u64) -> bool
    ensures { result ≡ between low n high }
{
    if n < low {
        return false;
    }
    n <= high
}
