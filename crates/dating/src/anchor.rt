// Feast words and dates, on which the wrappers act.
ghost use Rattle.std.specs.Prelude.{Err};
ghost use Rattle.calendar.specs.declared.refusal.Refusal.TheVariants.{Form};
ghost use Rattle.words.specs.Told.{Told};
ghost use Rattle.dating.specs.Steps.{anchors, anchor_day};

use calendar::date::day_in_year;
use calendar::refusal::Refusal;
use calendar::year::NamedYear;
use church::feast::feast_in_year;
use words::numeral::short_number_of;
use words::word::feast_of_word;

// The day of a feast word or date of the named year.
pub(crate) fn anchor_in_year(anchor: &[u8], named: NamedYear) -> Result<u32, Refusal>
    ensures { Told anchors (anchor_day named) (Err Form) anchor.now result }
{
    if anchor.len() < 3 {
        return Err(Refusal::Form);
    }
    if anchor[0] > b'9' {
        let Some(feast) = feast_of_word(anchor) else {
            return Err(Refusal::Form);
        };
        return feast_in_year(named, feast);
    }
    // A day of one or two digits.
    let end = if anchor[1] == b'.' { 1 } else { 2 };
    if anchor[end] != b'.' {
        return Err(Refusal::Form);
    }
    let Some(day) = short_number_of(&anchor[..end], 31) else {
        return Err(Refusal::Form);
    };
    let Some(month) = short_number_of(&anchor[end + 1..], 12) else {
        return Err(Refusal::Form);
    };
    day_in_year(named, month, day)
}
