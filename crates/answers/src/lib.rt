// Many lines: the answers to an input of any length, which comes in blocks, and the numbers of a page's
// lines. No public function has a `requires`, and the contract of each is an equation, or a relation that
// allows one answer only.
#![tactic(auto)]

pub mod block;
mod feed;
pub mod page;
