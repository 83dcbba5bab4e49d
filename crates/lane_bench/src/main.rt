//! Compares the kernels over rows of 256 nodes with their plain forms: without a word a checksum of what both forms of each kernel give, and
//! with the word `time` how much longer the plain form takes, in hundredths.
#![tactic(auto)]

mod data;
mod kernels;

use crate::kernels::{Form, Kernel, pass};
use std::alloc::Global;
use std::time::Instant;
use std::{env, io};

/// How many passes are timed.
const PASSES: u32 = 200;

const KERNELS: &[(Kernel, &str)] = &[
    (Kernel::AddRow, "add_row"),
    (Kernel::Totals, "totals"),
    (Kernel::Candidates, "candidates"),
    (Kernel::Greatest, "greatest"),
];

fn checked_pass(alloc: Global, kernel: Kernel, form: Form) -> io::Result<u64> {
    pass(alloc, kernel, form).map_err(|_| io::Error::from(io::ErrorKind::OutOfMemory))
}

/// The nanoseconds of many passes.
fn nanos(rt: &HostRuntime, kernel: Kernel, form: Form) -> io::Result<u128> {
    let start = Instant::now(rt)?;
    for _ in 0..PASSES {
        checked_pass(rt.alloc(), kernel, form)?;
    }
    Ok(start.elapsed(rt)?.as_nanos())
}

fn is_timed(rt: &HostRuntime) -> io::Result<bool> {
    for word in env::args(rt)?.skip(1) {
        if word.as_str() == "time" {
            return Ok(true);
        }
    }
    Ok(false)
}

/// How long the plain form of a kernel takes, in hundredths of the time by lanes.
fn hundredths(rt: &HostRuntime, kernel: Kernel) -> io::Result<u128> {
    let by_lanes = nanos(rt, kernel, Form::Lanes)?;
    let plain = nanos(rt, kernel, Form::Plain)?;
    Ok(plain.saturating_mul(100) / by_lanes.max(1))
}

fn print_time(rt: &HostRuntime, kernel: Kernel, name: &str) -> io::Result<()> {
    let ratio = hundredths(rt, kernel)?;
    println!(rt; "{name}: the plain form takes {ratio} hundredths of the time by lanes")
}

fn print_sums(rt: &HostRuntime, kernel: Kernel, name: &str) -> io::Result<()> {
    let by_lanes = checked_pass(rt.alloc(), kernel, Form::Lanes)?;
    let plain = checked_pass(rt.alloc(), kernel, Form::Plain)?;
    println!(rt; "{name}: by lanes {by_lanes}, plain {plain}")
}

fn main(rt: HostRuntime) -> io::Result<()> {
    let timed = is_timed(&rt)?;
    for (kernel, name) in KERNELS {
        if timed {
            print_time(&rt, *kernel, name)?;
        } else {
            print_sums(&rt, *kernel, name)?;
        }
    }
    Ok(())
}
