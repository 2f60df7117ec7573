// The phrase: each wrapper acts on what remains behind it, the innermost first.
ghost use Rattle.std.specs.Prelude.{◌≤◌, length, Err};
ghost use Rattle.calendar.specs.Year.{named};
ghost use Rattle.calendar.specs.declared.refusal.Refusal.TheVariants.{Form};
ghost use Rattle.words.specs.Told.{Told};
ghost use Rattle.dating.specs.Phrase.{phrase_day};
ghost use Rattle.dating.specs.Steps.{phrases};

use crate::act::act;
use crate::anchor::anchor_in_year;
use calendar::refusal::Refusal;
use calendar::style::Style;
use calendar::year::NamedYear;
use words::wrapper::lead_of;

// The day of a phrase in a year; style and year come by themselves, which are handed on in registers, as a record is not.
// It calls itself once for each wrapper, so its depth is bounded by the phrase's length.
pub(crate) fn phrase_in_year(phrase: &[u8], style: Style, year: u64) -> Result<u32, Refusal>
    requires { length phrase.now ≤ 120 }
    ensures { Told phrases (phrase_day (named style year)) (Err Form) phrase.now result }
{
    let Some(lead) = lead_of(phrase) else {
        let answer = anchor_in_year(phrase, NamedYear { style, year });
        // Here and below a day or refusal is taken apart as the scope asks for it by name.
        let Ok(day) = answer else {
            return answer;
        };
        return Ok(day);
    };
    let rest = &phrase[lead.length..];
    let inner = phrase_in_year(rest, style, year);
    let Ok(day) = inner else {
        return inner;
    };
    act(lead.wrapper, style.dates_by(), day)
}
