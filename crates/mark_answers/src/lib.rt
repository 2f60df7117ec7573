// What is told of the marks of a transcript, as text, in blocks. No public function has a `requires`,
// and the contract is a relation that allows one answer only.
#![tactic(auto)]

pub mod transcript;
