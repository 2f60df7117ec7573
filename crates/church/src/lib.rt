// The year sheets and the feasts of the church. No public function has a `requires`, and the
// contract of each is an equation with a definition of specs/, or a relation that allows one
// answer only.
#![tactic(auto)]

mod arithmetic;
mod easter;
mod epact;
pub mod feast;
pub mod letter;
pub mod sheet;
