//! The program that only counts: `scuba DIR count FROM TO`. It is built before all else is proved.
#![tactic(auto)]

use command_line::{ended, read_line, refusal_status};
use run_words::run_count;
use std::io;
use std::process::ExitCode;
use std_streams::{StdSink, StdSource};

fn main(rt: HostRuntime) -> ExitCode {
    let line = match read_line(&rt) {
        Ok(line) => line,
        Err(refusal) => return ended(&rt, &refusal_status(refusal)),
    };
    let mut source = StdSource::new(rt.reader());
    let mut sink = StdSink::new(io::writer(&rt));
    let words = line.words.as_slice();
    let status = run_count(&rt, rt.alloc(), words, &mut source, &mut sink);
    ended(&rt, &status)
}
