// The dating line: its reader, the part of it that is the feast word or date, the writer of dates and
// the answer to a line as text. No public function has a `requires`, and the contract of each is a
// relation that allows one answer only.
#![tactic(auto)]

mod act;
mod anchor;
pub mod answer;
pub mod line;
pub mod part;
mod phrase;
pub mod writer;
