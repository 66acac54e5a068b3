//! Reads a script of terms from its input, runs its commands, and writes one line for each, or the fault of the first line that has one.
#![tactic(auto)]

mod adapters;
mod reading;
mod running;
mod words;
mod writing;

use adapters::{StdinSource, StdoutSink};
use running::{Status, run};
use std::process::ExitCode;
use words::words;

fn main(rt: HostRuntime) -> ExitCode {
    let status = match words(rt.alloc(), &rt) {
        Ok(words) => {
            let mut source = StdinSource::new(rt.stdin());
            let mut sink = StdoutSink::new(rt.stdout());
            run(rt.alloc(), words.as_slice(), &mut source, &mut sink).status
        }
        Err(_) => Status::Memory,
    };
    ExitCode::from(status as u8)
}
