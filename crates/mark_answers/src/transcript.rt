// What is told of the marks of a transcript, in blocks that have room in one buffer.
ghost use Rattle.std.specs.Prelude.{◌+◌, ◌≤◌, length};
ghost use Rattle.marks.specs.Steps.{Few};
ghost use Rattle.mark_answers.specs.Steps.{PutsMark, Tellable};
ghost use Rattle.mark_answers.specs.Transcript.{TellsFrom, TellsNone, AnswersMarks};

use calendar::refusal::Refusal;
use dating::answer::{put_answer, put_field};
use marks::transcript::NextMark;
use marks::utf8::is_utf8;
use marks::walk::marks_of;

// The bytes of the buffer for output.
pub const OUTPUT: usize = 65536;

// How many bytes are written, and how many marks they tell.
#[derive(Clone, Copy, PartialEq, Eq)]
pub struct Told {
    pub written: usize,
    pub marks: usize,
}

// Puts what is told of a mark, whose text is the line, at a place, as put_answer does, and returns the place after it.
fn put_mark(line: &[u8], mark: NextMark, output: &mut [u8], at: usize) -> usize
    requires { Few mark × (at + 49 ≤ length output.old) }
    ensures { PutsMark line.now mark at output.old output.new result }
{
    let at = at + put_field(output, at, mark.start as u64, b' ');
    let at = at + put_field(output, at, mark.end as u64, b' ');
    let at = at + put_field(output, at, mark.start_character as u64, b' ');
    let at = at + put_field(output, at, mark.end_character as u64, b' ');
    at + put_answer(line, output, at)
}

// Tells the marks behind the first so many of a transcript that is UTF-8, as long as the most that is
// told of one has room.
fn tell_marks(text: &[u8], skip: usize, output: &mut [u8]) -> Told
    requires { Tellable text.now }
    ensures { TellsFrom text.now skip output.old output.new result }
{
    let mut written = 0;
    let mut told = 0;
    for mark in marks_of(text).skip(skip) {
        if output.len() - written < 49 {
            break;
        }
        written = put_mark(&text[mark.start..mark.end], mark, output, written);
        told += 1;
    }
    Told {
        written,
        marks: told,
    }
}

// Tells why a transcript is refused, and no mark.
fn tell_refusal(refusal: Refusal, output: &mut [u8]) -> Told
    requires { 21 ≤ length output.old }
    ensures { TellsNone refusal output.old output.new result }
{
    Told {
        written: put_field(output, 0, u64::from(u32::from(refusal)), b'\n'),
        marks: 0,
    }
}

// Tells the marks of a transcript after the first so many, as long as the most that is told of one
// has room; or the refusal 2 or 9, and no mark.
pub fn answer_marks(text: &[u8], skip: usize, output: &mut [u8; OUTPUT]) -> Told
    ensures { AnswersMarks text.now skip output.old output.new result }
{
    if text.len() > 65536 {
        return tell_refusal(Refusal::Length, output);
    }
    if !is_utf8(text) {
        return tell_refusal(Refusal::Encoding, output);
    }
    tell_marks(text, skip, output)
}
