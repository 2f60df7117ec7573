// Calls of the year sheet and of the feasts, read from standard input, one to a line, and each
// printed with its answer behind it:
//   sheet S Y    the sheet of year Y in style S: leap, golden number, epact, whether that is the
//                Arabic 25, the two Sunday letters, limit, key and Easter; yes is 1 and no is 0
//   feast S F Y  the day of feast F in that year
//   year S Y     the sheet, then the days of the feasts 1 to 48
// What is refused is answered by the refusal's number, and a line that is no such call by `no such
// call`. Of a longer line the first 80 bytes are kept, and no call has so many.
#![tactic(auto)]

mod answer;
mod call;

use answer::answer_line;
use arrayvec::ArrayVec;
use std::io::Read;
use std::process::ExitCode;

// The bytes that are kept of a line.
const LINE: usize = 80;

// The bytes of a block, which one read takes at most.
const BLOCK: usize = 65536;

// Answers each line of the input; an error says what failed.
fn answer_all(rt: &HostRuntime) -> Result<(), &'static str> {
    let mut line = ArrayVec::<u8, LINE>::new();
    let mut block = [0u8; BLOCK];
    // Nothing says that an input ends, so the reads are counted, up to a number that no run reaches.
    for _ in 0..u64::MAX {
        let got = rt.stdin().read(&mut block).or(Err("cannot read"))?;
        if got == 0 {
            break;
        }
        for byte in &block[..got] {
            if *byte == b'\n' {
                answer_line(rt, &line).or(Err("cannot write"))?;
                line.clear();
            } else {
                // What has no room is left out.
                let _ = line.try_push(*byte);
            }
        }
    }
    if !line.is_empty() {
        answer_line(rt, &line).or(Err("cannot write"))?;
    }
    Ok(())
}

// The exit status is 1 where the input cannot be read or the output not written.
fn main(rt: HostRuntime) -> ExitCode {
    match answer_all(&rt) {
        Ok(()) => ExitCode::SUCCESS,
        Err(reason) => {
            let _ = eprintln!(rt; "church_cases: {reason}");
            ExitCode::FAILURE
        }
    }
}
