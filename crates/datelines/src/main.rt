// Reads dating lines from standard input and writes one answer a line to standard output. What turns
// bytes into answers is in the library; this only moves bytes.
#![tactic(auto)]

use answers::block::{INPUT, OUTPUT, answer_block, answer_last};
use std::io::Read;
use std::process::ExitCode;

fn put(rt: &impl Print, output: &[u8]) -> Result<(), &'static str> {
    rt.write_all(output).map_err(|_| "datelines: cannot write")
}

// Answers the lines that come; a read or a write that fails ends it.
fn run(rt: &HostRuntime) -> Result<(), &'static str> {
    let mut buffer = [0u8; INPUT];
    let mut output = [0u8; OUTPUT];
    let mut kept = 0;
    // Nothing says that an input ends, so the reads are counted, up to a number that no run reaches.
    for _ in 0..u64::MAX {
        let got = rt
            .stdin()
            .read(&mut buffer[kept..])
            .map_err(|_| "datelines: cannot read")?;
        if got == 0 {
            let written = answer_last(&buffer, kept, &mut output);
            return put(rt, &output[..written]);
        }
        let filled = kept + got;
        let progress = answer_block(&mut buffer, filled, &mut output);
        put(rt, &output[..progress.written])?;
        kept = progress.kept;
    }
    Ok(())
}

// The exit status is 1 where the input cannot be read or the output not written.
fn main(rt: HostRuntime) -> ExitCode {
    match run(&rt) {
        Ok(()) => ExitCode::SUCCESS,
        Err(failure) => {
            let _ = rt.eprintln(failure);
            ExitCode::FAILURE
        }
    }
}
