// The words and numerals of the dating line. No public function has a `requires`, and the contract
// of each is a relation that allows one answer only.
#![tactic(auto)]

pub mod numeral;
pub mod text;
pub mod word;
pub mod wrapper;
