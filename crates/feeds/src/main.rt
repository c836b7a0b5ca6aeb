#![tactic(auto)]
// Gives feeds recorded from a PostgreSQL server, named by its arguments, each to a fresh session of the version in its name, and to one
// with a keeper besides. Prints each refusal, what each Stream Commit released, how many bytes are still held in the end, and how many
// messages were accepted; and of a feed with binary columns what their values sum to. A feed is records of the mark C3 4D, a length of 32
// bits and a message. Behind a word `turns` stand two feeds whose blocks are mixed, and exchanged: how often, and whether a message got
// something else then, is printed. What cannot be written is left out, and a failed read counts as the end.
use giving::{ROOM, Sessions};
use std::alloc::AllocError;
use std::env::{Env, FillError};
use std::io::{ErrorKind, Read};
use std::rt::Runtime;
use std::{fs, io, str};

mod binary;
mod blocks;
mod giving;
mod notes;
mod records;
mod sums;
mod turns;

// The version that a feed's name says it was recorded at: the digit behind the first `.v`.
fn version_of(name: &[u8]) -> u32 {
    name.windows(3)
        .find_map(|part| match part {
            [b'.', _, digit] => Some(u32::from(*digit % 16)),
            _ => None,
        })
        .unwrap_or(0)
}

// Reads behind what was read before, as far as there is room.
fn read_all(file: impl Read + Drop, trace: &mut Vec<u8>) -> io::Result<()> {
    let room = ROOM.saturating_sub(trace.len());
    match file.take(room as u64).read_to_end(trace) {
        Err(error) if error.kind() == ErrorKind::OutOfMemory => Err(error),
        _ => Ok(()),
    }
}

// Reads a feed behind what was read before.
fn read_feed(
    rt: &(impl Runtime + AllocGlobal),
    name: &[u8],
    trace: &mut Vec<u8>,
) -> io::Result<()> {
    let Ok(path) = str::from_utf8(name) else {
        let _ = rt.eprintln("a feed whose name is not text");
        return Ok(());
    };
    match fs::open(rt, path) {
        Ok(file) => read_all(file, trace),
        Err(error) => {
            let _ = eprintln!(rt; "{path}: {error}");
            Ok(())
        }
    }
}

// The arguments behind the program's name. One that has more than 256 bytes is taken as empty.
fn arguments(rt: &(impl Env + AllocGlobal)) -> Result<Vec<Vec<u8>>, AllocError> {
    let mut words = Vec::new(rt.alloc());
    let mut word = [0u8; 256];
    for k in 1..usize::MAX {
        match rt.arg(k, &mut word) {
            Ok(n) => words.push(word[..n].to_vec(rt.alloc())?)?,
            Err(FillError::NotPresent) => break,
            Err(_) => words.push(Vec::new(rt.alloc()))?,
        }
    }
    Ok(words)
}

fn run_feed(
    rt: &(impl Runtime + AllocGlobal),
    name: &[u8],
    sessions: &mut Sessions,
) -> io::Result<()> {
    let _ = rt.write_all(name);
    let _ = rt.println("");
    let mut trace = Vec::new(rt.alloc());
    read_feed(rt, name, &mut trace)?;
    let version = version_of(name);
    sessions.give_all(rt, version, trace.as_slice());
    binary::read_all(rt.alloc(), version, trace.as_slice())?.print(rt);
    Ok(())
}

// Two feeds are mixed, and their blocks take turns.
fn run_turns(
    rt: &(impl Runtime + AllocGlobal),
    names: [&[u8]; 2],
    sessions: &mut Sessions,
) -> io::Result<()> {
    let mut trace = Vec::new(rt.alloc());
    let _ = rt.print("turns of");
    for name in names {
        let _ = rt.print(" ");
        let _ = rt.write_all(name);
        read_feed(rt, name, &mut trace)?;
    }
    let _ = rt.println("");
    turns::take_turns(rt, trace.as_slice(), sessions)?;
    Ok(())
}

fn main(rt: HostRuntime) -> io::Result<()> {
    let words = arguments(&rt)?;
    let mut sessions = Sessions::new(rt.alloc())?;
    let mut left = words.as_slice();
    while let [word, rest @ ..] = left {
        left = match rest {
            [one, two, rest @ ..] if word.as_slice() == b"turns".as_slice() => {
                run_turns(&rt, [one.as_slice(), two.as_slice()], &mut sessions)?;
                rest
            }
            _ => {
                run_feed(&rt, word.as_slice(), &mut sessions)?;
                rest
            }
        };
    }
    Ok(())
}
