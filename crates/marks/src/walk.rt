// From mark to mark.
ghost use Rattle.std.specs.Prelude.{◌≡◌, ◌-◌, ℕ, List, length, take};
ghost use Rattle.std.specs.Iterator.{at_most};
ghost use Rattle.marks.specs.Steps.{Between};
ghost use Rattle.marks.specs.Utf8.{starts};
ghost use Rattle.marks.specs.Walk.{Walks};

use crate::transcript::{NextMark, next_mark};
use std::marker::Model;

// The marks of a text that begin at a place or later, in order.
#[derive(Drop)]
pub struct Marks<'a> {
    text: &'a [u8],
    at: usize,
    characters: usize,
}

impl<'a> Model for Marks<'a> {
    ghost Value = { List ℕ × ℕ };

    ghost view = { λ m. (m.text.now, m.at) };

    ghost invariant = { λ m. Between m.text.now m.at × (m.characters ≡ starts (take m.at m.text.now)) };
}

// All marks of a text.
pub fn marks_of(text: &[u8]) -> Marks<'_>
    ensures { result ≡ (text.now, 0) }
{
    Marks {
        text,
        at: 0,
        characters: 0,
    }
}

impl Iterator for Marks<'_> {
    type Item = NextMark;

    ghost next_gives = { Walks };

    ghost remaining = { λ m. at_most (length m.0 - m.1) };

    fn next(&mut self) -> Option<NextMark> {
        let mark = next_mark(&self.text[self.at..])?;
        let found = NextMark {
            start: self.at + mark.start,
            end: self.at + mark.end,
            start_character: self.characters + mark.start_character,
            end_character: self.characters + mark.end_character,
        };
        self.at = found.end + 2;
        self.characters = found.end_character + 2;
        Some(found)
    }
}
