// Blocks of an input, and the answers to the lines in them.
ghost use Rattle.std.specs.Prelude.{◌+◌, ◌*◌, ◌≤◌, length, take};
ghost use Rattle.answers.specs.Block.{AnswersBlock, AnswersLast};
ghost use Rattle.answers.specs.Steps.{AnswersEnded};

use crate::feed::end_from;
use dating::answer::put_answer;

// The bytes of the buffer for input.
pub const INPUT: usize = 16000;

// The bytes of the buffer for output: enough, since no answer has more than four times the bytes of
// its line with the line feed, and put_answer wants 25 free.
pub const OUTPUT: usize = 65536;

// How many bytes are written to the output, and how many are kept of the line that is still open.
#[derive(Clone, Copy, PartialEq, Eq)]
pub struct Progress {
    pub written: usize,
    pub kept: usize,
}

// How many bytes are written to the output, and where the line that is still open begins.
#[derive(Clone, Copy, PartialEq, Eq)]
struct Ended {
    written: usize,
    start: usize,
}

// Answers the lines that end in the input.
fn answer_ended(input: &[u8], output: &mut [u8]) -> Ended
    requires { 4 * length input.now + 25 ≤ length output.old }
    ensures { AnswersEnded input.now output.old output.new result }
{
    let mut written = 0;
    let mut start = 0;
    // From line feed to line feed, and by no iterator of lines, since the last line is open and stays.
    while let Some(end) = end_from(input, start) {
        written += put_answer(&input[start..end], output, written);
        start = end + 1;
    }
    Ended { written, start }
}

// A block of the input: answers the lines that end in the first bytes of the buffer, and moves what is
// kept of the line that is still open to its start, so that the next block can be read after it. The buffer comes whole,
// with the count of its filled bytes, since the contract says of all its bytes what they are then.
pub fn answer_block(buffer: &mut [u8; INPUT], filled: usize, output: &mut [u8; OUTPUT]) -> Progress
    ensures { AnswersBlock (take filled buffer.old) buffer.old buffer.new output.old output.new result }
{
    let end = filled.min(INPUT);
    let Ended { written, start } = answer_ended(&buffer[..end], output);
    let kept = (end - start).min(121);
    buffer.copy_within(start..start + kept, 0);
    Progress { written, kept }
}

// The end of the input: answers the last line, where no line feed ended it and its bytes are the first
// of the buffer, which is public and so comes as answer_block has it.
pub fn answer_last(buffer: &[u8; INPUT], filled: usize, output: &mut [u8; OUTPUT]) -> usize
    ensures { AnswersLast (take filled buffer.now) output.old output.new result }
{
    match &buffer[..filled.min(INPUT)] {
        [] => 0,
        line => put_answer(line, output, 0),
    }
}
