// Reads one transcript from standard input and writes what is told of its marks to standard output.
// What finds and answers them is in the library; this only moves bytes.
#![tactic(auto)]

ghost use Rattle.std.specs.Prelude.{length};
ghost use Rattle.datemarks.specs.Reading.{TakenInside};

use mark_answers::transcript::{OUTPUT, answer_marks};
use std::io::Read;
use std::process::ExitCode;

// The bytes of the buffer for input: one more than the longest transcript has, so that a longer one is seen.
const INPUT: usize = 65537;

// Writes what is told of the marks of a transcript, or the refusal: each call tells the marks after
// those that were told, and one that tells none is the last.
fn tell(rt: &impl Print, text: &[u8], output: &mut [u8; OUTPUT]) -> Result<(), &'static str> {
    let mut skip = 0;
    // No iterator, since each call writes over what the one before told.
    loop {
        let told = answer_marks(text, skip, output);
        rt.write_all(&output[..told.written])
            .map_err(|_| "datemarks: cannot write")?;
        if told.marks == 0 {
            return Ok(());
        }
        skip += told.marks;
    }
}

// Reads a transcript into the buffer, and returns how many bytes are taken. Each read but the last takes a
// byte at least, so that these fill it or reach the end of the input.
fn read_transcript(rt: &HostRuntime, input: &mut [u8]) -> Result<usize, &'static str>
    ensures { TakenInside (length input.new) result }
{
    let mut filled = 0;
    for _ in 0..INPUT {
        let got = rt
            .stdin()
            .read(&mut input[filled..])
            .map_err(|_| "datemarks: cannot read")?;
        if got == 0 {
            break;
        }
        filled += got;
    }
    Ok(filled)
}

fn run(rt: &HostRuntime) -> Result<(), &'static str> {
    let mut input = [0u8; INPUT];
    let mut output = [0u8; OUTPUT];
    let count = read_transcript(rt, &mut input)?;
    tell(rt, &input[..count], &mut output)
}

// The exit status is 1 where the input cannot be read or the output not written.
fn main(rt: HostRuntime) -> ExitCode {
    match run(&rt) {
        Ok(()) => ExitCode::SUCCESS,
        Err(failure) => {
            let _ = rt.eprintln(failure);
            ExitCode::FAILURE
        }
    }
}
