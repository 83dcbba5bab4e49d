//! Cuts a text from standard input into logical lines and words, and prints how many there are, or the first fault. With the word `time` it prints
//! instead how many bytes it cuts in a second.
#![tactic(auto)]

mod report;
mod speed;

ghost use Rattle.std.specs.Prelude.{◌≤◌, ◌<◌, ◌^◌, IfOk, length};

use crate::report::report_of;
use crate::speed::{PASSES, asks_for_time, speed_line};
use cluster_io::{ReadEnd, StdSource, read_all};
use crm_lex::{LexFault, logical_lines};
use std::alloc::Global;
use std::env;
use std::io::{self, ErrorKind};
use std::time::Instant;

/// The largest text, in bytes.
const LIMIT: usize = 16_777_216;

fn text(rt: &HostRuntime) -> io::Result<Vec<u8>>
    ensures { IfOk result (λ bytes. length bytes.items ≤ 16777216) }
{
    let mut source = StdSource::new(rt.stdin());
    match read_all(rt.alloc(), &mut source, LIMIT) {
        Ok(bytes) => Ok(bytes),
        Err(ReadEnd::NoMemory) => Err(io::Error::from(ErrorKind::OutOfMemory)),
        Err(ReadEnd::TooLarge) => Err(io::Error::from(ErrorKind::FileTooLarge)),
        Err(ReadEnd::Fault) => Err(io::Error::from(ErrorKind::Other)),
    }
}

fn words(rt: &HostRuntime) -> io::Result<Vec<String>> {
    Ok(env::args(rt)?.skip(1).collect(rt.alloc())?)
}

/// The nanoseconds that all passes take.
fn nanos(rt: &HostRuntime, bytes: &[u8]) -> io::Result<u128>
    requires { length bytes.now < 2 ^ 32 }
{
    let start = Instant::now(rt)?;
    for _ in 0..PASSES {
        if let Err(LexFault::NoMemory) = logical_lines(rt.alloc(), bytes) {
            return Err(io::Error::from(ErrorKind::OutOfMemory));
        }
    }
    Ok(start.elapsed(rt)?.as_nanos())
}

/// What is printed of a text.
fn line(rt: &HostRuntime, bytes: &[u8]) -> io::Result<String>
    requires { length bytes.now < 2 ^ 32 }
{
    let line = if asks_for_time(&words(rt)?) {
        speed_line(rt.alloc(), bytes.len(), nanos(rt, bytes)?)?
    } else {
        report_of(rt.alloc(), bytes)?
    };
    Ok(line)
}

fn main(rt: HostRuntime) -> io::Result<()> {
    let line = line(&rt, &text(&rt)?)?;
    println!(rt; "{line}")
}
