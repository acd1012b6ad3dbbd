// Compares the library with vectors that other programs made: a vector to a line, `KIND PARAMS INPUT OUTPUT PEER`.
#![tactic(auto)]

use buffers::Buffers;
use check::agrees;
use kind::{KINDS, Tally};
use std::alloc::AllocError;
use std::io;
use std::io::{BufRead, BufReader};
use vector::{ParseError, parse};

mod check;
mod kind;
mod params;
mod vector;

// Tests the vector of a line, prints a line where it differs, and counts it.
fn test(
    rt: &HostRuntime,
    buffers: &mut Buffers,
    tally: &mut Tally,
    number: u64,
    line: &[u8],
) -> io::Result<()> {
    let vector = match parse(rt.alloc(), line) {
        Ok(Some(vector)) => vector,
        Ok(None) => return Ok(()),
        Err(ParseError::OutOfMemory) => return Err(AllocError.into()),
        Err(error) => return println!(rt; "line {number}: {error}"),
    };
    let kind = vector.kind;
    let equal = agrees(buffers, &vector);
    tally.count(kind, equal);
    if equal {
        return Ok(());
    }
    println!(rt; "line {number}: {kind} differs")
}

fn main(rt: HostRuntime) -> io::Result<()> {
    let heap = rt.alloc();
    let mut buffers = Buffers::new(heap, 4096)?;
    let mut tally = Tally::new();
    let lines = BufReader::new(heap, rt.stdin())?.lines(heap);
    for (number, line) in (1..).zip(lines) {
        test(&rt, &mut buffers, &mut tally, number, line?.as_bytes())?;
    }
    for kind in KINDS {
        let count = tally.of(kind);
        println!(rt; "{kind} {count}")?;
    }
    Ok(())
}
