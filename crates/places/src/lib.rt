// Numbers in lent bytes, for calls that fill places. No public function has a `requires`.
#![tactic(auto)]

pub mod number;
