// Reads texts of the format, one a line, and prints what each reads as and how it is written.
#![tactic(auto)]

mod hex;
mod line;
mod reading;
mod tally;
mod unread;

use line::read_line;
use std::io::Read;
use tally::Tally;
use unread::Unread;

fn run(rt: &HostRuntime) -> anyhow::Result<()> {
    let mut input = Vec::new(rt.alloc());
    let _ = rt.stdin().read_to_end(&mut input)?;
    let mut tally = Tally::default();
    for line in input.split_inclusive(|byte| *byte == b'\n') {
        let line = line.strip_suffix(b"\n").unwrap_or(line);
        let answer = read_line(rt.alloc(), line);
        tally.count(&answer);
        match answer {
            Ok(reading) => println!(rt; "{reading}")?,
            Err(Unread::OutOfMemory(error)) => return Err(error.into()),
            Err(unread) => println!(rt; "{unread}")?,
        }
    }
    println!(rt; "{tally}")?;
    Ok(())
}

fn main(rt: HostRuntime) -> anyhow::Result<()> {
    run(&rt)
}
