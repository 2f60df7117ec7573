// Pairs of brackets, and the marks between them.
ghost use Rattle.marks.specs.Mark.{IsFirstMark};

// Where a mark's text begins, and where it ends.
#[derive(Clone, Copy, PartialEq, Eq)]
pub struct Mark {
    pub start: usize,
    pub end: usize,
}

// The first mark of a text, or none.
pub(crate) fn first_mark(text: &[u8]) -> Option<Mark>
    ensures { IsFirstMark text.now result }
{
    let mut start = None;
    let mut i = 0;
    // a step passes one byte or a pair of them, so this is no `for`
    while i < text.len() {
        match text[i..].first_chunk() {
            Some(b"[[") => {
                start = Some(i + 2);
                i += 2; // pairs do not overlap
            }
            Some(b"]]") => {
                if let Some(start) = start {
                    return Some(Mark { start, end: i });
                }
                i += 2;
            }
            _ => i += 1,
        }
    }
    None
}
