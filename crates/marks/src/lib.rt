// Marks in whole transcripts. No public function has a `requires`, and the contract of each is a
// relation that allows one answer only.
#![tactic(auto)]

pub mod mark;
pub mod transcript;
pub mod utf8;
pub mod walk;
