// The month column walked in every year that has a sheet, and its limit held against the sheet's,
// which the library finds by arithmetic.
#![tactic(auto)]

mod column;

use calendar::style::Style;
use calendar::year::NamedYear;
use church::sheet::sheet_in_year;
use column::luna_one;

// How many years have a sheet, how many days of the column were walked in them, and how many limits
// of the column are the sheet's.
#[derive(Clone, Copy, Default)]
struct Tally {
    years: u64,
    days: u64,
    limits: u64,
}

// The tally of a style's years.
#[tactic(auto, using(church::proofs::Claims::luna_found))]
fn survey(style: Style) -> Tally {
    let mut tally = Tally::default();
    for year in 1..=9999 {
        let Ok(sheet) = sheet_in_year(NamedYear { style, year }) else {
            continue;
        };
        let luna = luna_one(style.easter_by(), year, sheet.epact, sheet.arabic);
        tally.years += 1;
        // The walk begins at 8 March.
        tally.days += luna - 7;
        // The limit is thirteen days after Luna I.
        tally.limits += u64::from(luna + 13 == sheet.limit);
    }
    tally
}

fn main(rt: HostRuntime) {
    for style in [Style::J, Style::G, Style::O] {
        let letter = char::from(style.letter());
        let tally = survey(style);
        // Whoever reads the output sees that a line is missing.
        let _ = println!(rt;
            "{letter}: {} years, {} days walked, {} limits",
            tally.years, tally.days, tally.limits
        );
    }
}
