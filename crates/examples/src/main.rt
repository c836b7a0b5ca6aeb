#![tactic(auto)]
// Gives the cases of its standard input to the reader and to the second reader, and says for each group how many ran and
// on how many both gave the same answer and the one that stands there. Cases that are marked for it are then varied: at
// every version and place, cut short, made longer, and with one byte changed. What a message has is stepped through to its
// end, and from every offset. A message that was read is written back from its bytes, and made-up ones are written or refused.
// Messages are given to sessions, and to sessions with a keeper. Binary values are read by their types, those of the cases, those that
// stand at any offset of a message, and patterns of every type, and written back.

use passes::{PASSES, Pass};
use std::alloc::AllocError;
use std::io::Read;
use tally::Tally;
use text::{Bytes, Text};

mod answers;
mod everywhere;
mod flat;
mod keepers;
mod made;
mod passes;
mod readers;
mod sessions;
mod steps;
mod sweep;
mod tally;
mod text;
mod typed;
mod varied;
mod wanted;
mod writing;

// The cases have fewer bytes than this.
const ROOM: usize = 131_072;

// What cannot be written is left out, here and below.
fn print(rt: &impl Print, text: &[u8]) {
    let _ = rt.write_all(text);
}

// Whether a line with this first byte is a group's name, a note or empty, or concerns a session.
fn is_no_case(first: u8) -> bool {
    b"#/>+\nKkHho".contains(&first)
}

// A made-up message.
fn run_made(rt: &impl Print, tally: &mut Tally, pass: Pass, line: &[u8], message: &mut Bytes) {
    if pass == Pass::AsWritten {
        writing::run_made(rt, tally, line, message);
    }
}

fn run_value(rt: &impl Print, tally: &mut Tally, pass: Pass, line: &[u8], message: &mut Bytes) {
    match pass {
        Pass::AsWritten => typed::run_case(rt, tally, line, message),
        Pass::Values => typed::run_everywhere(rt, tally, line, message),
        _ => {}
    }
}

fn run_case(rt: &impl Print, tally: &mut Tally, pass: Pass, line: &[u8], message: &mut Bytes) {
    let marked = line.strip_prefix(b"~");
    let Some(case) = Text::new(marked.unwrap_or(line)).case(message) else {
        print(rt, b"  not a case: ");
        print(rt, line);
        tally.count(false);
        return;
    };
    if marked.is_some() || !pass.is_varied() {
        passes::run(rt, tally, pass, case, message);
    }
}

fn run_line(rt: &impl Print, tally: &mut Tally, pass: Pass, line: &[u8], message: &mut Bytes) {
    match text::byte_at(line, 0) {
        first if is_no_case(first) => {}
        b'!' => run_made(rt, tally, pass, line, message),
        b'v' => run_value(rt, tally, pass, line, message),
        _ => run_case(rt, tally, pass, line, message),
    }
}

fn run_lines(rt: &impl Print, tally: &mut Tally, pass: Pass, lines: &[u8], message: &mut Bytes) {
    for line in lines.split_inclusive(text::is_line_end) {
        run_line(rt, tally, pass, line, message);
    }
}

fn run_group(rt: &impl Print, group: &[u8], message: &mut Bytes) {
    let mut tally = Tally::default();
    run_lines(rt, &mut tally, Pass::AsWritten, group, message);
    sessions::run_lines(rt, &mut tally, group, message);
    keepers::run_lines(rt, &mut tally, group, message);
    print(rt, text::name(group));
    let _ = println!(rt; ": {tally}");
}

// The groups, without what stands before the first.
fn run_groups(rt: &impl Print, cases: &[u8], message: &mut Bytes) {
    let mut text = Text::new(cases);
    if !cases.starts_with(b"#") {
        text.group();
    }
    while let Some(group) = text.group() {
        run_group(rt, group, message);
    }
}

fn run_passes(rt: &impl Print, cases: &[u8], message: &mut Bytes) {
    for pass in PASSES {
        let mut tally = Tally::default();
        run_lines(rt, &mut tally, pass, cases, message);
        let _ = println!(rt; "{pass}: {tally}");
    }
}

fn main(rt: HostRuntime) -> Result<(), AllocError> {
    let mut cases = Vec::with_capacity(rt.alloc(), ROOM)?;
    let _ = rt.stdin().take(ROOM as u64).read_to_end(&mut cases);
    if cases.len() == ROOM {
        print(&rt, b"no room for the cases\n");
    }
    let mut message = Bytes::new();
    run_groups(&rt, &cases, &mut message);
    run_passes(&rt, &cases, &mut message);
    sweep::run(&rt);
    Ok(())
}
