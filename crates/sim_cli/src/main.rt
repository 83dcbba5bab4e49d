//! `cekpayo`: the scheduler and transition executor of a cluster, over standard input and output.
#![tactic(auto)]

use cluster_io::{StdSink, StdSource};
use sim_core::{Status, run};
use std::env;
use std::io::ErrorKind;
use std::process::ExitCode;

/// The words after the program's name, or the status that a program ends with that can't list them.
fn words(rt: &HostRuntime) -> Result<Vec<String>, Status> {
    match env::args(rt) {
        Ok(args) => args
            .skip(1)
            .collect(rt.alloc())
            .map_err(|_| Status::NoMemory),
        Err(error) if error.kind() == ErrorKind::OutOfMemory => Err(Status::NoMemory),
        Err(_) => Err(Status::Usage),
    }
}

fn main(rt: HostRuntime) -> ExitCode {
    let words = match words(&rt) {
        Ok(words) => words,
        Err(status) => return ExitCode::from(status.code()),
    };
    let mut source = StdSource::new(rt.stdin());
    let mut sink = StdSink::new(rt.stdout());
    ExitCode::from(run(rt.alloc(), &words, &mut source, &mut sink).code())
}
