// Calendars, styles, years, dates, weekdays and distances. No public function has a
// `requires`, and the contract of each is an equation with a definition of specs/, or a relation
// that allows one answer only.
#![tactic(auto)]

pub mod date;
pub mod day;
pub mod distance;
pub mod range;
pub mod refusal;
pub mod span;
pub mod style;
pub mod weekday;
pub mod year;
