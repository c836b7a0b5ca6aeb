// Gives the messages of a feed, each tagged with its index, to a session and to a session with a keeper.
use crate::records::{FEED, KEPT, Record, Records};
use session::Answer;
use std::alloc::{AllocError, Global};
use wire::Refusal;

// The keeper's buffer and output have room for any feed.
pub const ROOM: usize = 524_288;

// A session, and one with a keeper: its buffer, how many bytes that holds, and its output. How many messages the session accepted.
#[derive(Drop)]
pub struct Sessions {
    alone: session::Session,
    keeping: session::Session,
    buffer: Vec<u8>,
    out: Vec<u8>,
    pub held: usize,
    pub accepted: u64,
}

// What a message got from the session, and what from the one with a keeper: the answer, and how many bytes were released.
#[derive(Clone, Copy)]
pub struct Given {
    pub alone: Answer,
    pub keeping: Answer,
    pub released: usize,
}

impl Sessions {
    pub fn new(alloc: Global) -> Result<Sessions, AllocError> {
        Ok(Sessions {
            alone: session::start_default(),
            keeping: session::start_default(),
            buffer: vec![in alloc; 0; ROOM]?,
            out: vec![in alloc; 0; ROOM]?,
            held: 0,
            accepted: 0,
        })
    }

    pub fn start(&mut self, version: u32) {
        self.alone = session::start(version);
        self.keeping = session::start(version);
        self.held = 0;
        self.accepted = 0;
    }

    pub fn give(&mut self, message: &[u8], index: u64) -> Given {
        let alone = session::give_lent(&mut self.alone, message, index);
        let reply = keeper::give_lent(
            &mut self.keeping,
            message,
            index,
            self.buffer.as_mut_slice(),
            &mut self.held,
            self.out.as_mut_slice(),
        );
        if alone.is_ok() {
            self.accepted = self.accepted.saturating_add(1);
        }
        Given {
            alone,
            keeping: reply.answer,
            released: reply.released,
        }
    }

    // The bytes that the last message released.
    pub fn released(&self, given: Given) -> &[u8] {
        self.out.get(..given.released).unwrap_or(&[])
    }

    fn print_released(&self, rt: &impl Print, index: usize, given: Given) {
        let released = self.released(given);
        let _ = print!(rt; "{index}: released {} bytes in ", released.len());
        let mut records = Records::of(released, KEPT);
        let count = records.by_ref().count();
        if !records.is_empty() {
            let _ = rt.println("not a record");
        }
        let _ = println!(rt; "{count} records");
    }

    // Prints what an accepted Stream Commit released, where the keeper's answer is not the session's own, and each refusal.
    fn print_given(&self, rt: &impl Print, index: usize, message: &[u8], given: Given) {
        if given.keeping != given.alone {
            let _ = println!(rt; "{index}: another answer with a keeper");
        }
        if given.keeping.is_ok() && message.starts_with(b"c") {
            self.print_released(rt, index, given);
        }
        if let Err(Refusal { number, offset }) = given.alone {
            let _ = println!(rt; "{index}: {number} at {offset}");
        }
    }

    // What is held in the end, and how many of the messages were accepted.
    pub fn print_counts(&self, rt: &impl Print, messages: usize) {
        if self.held != 0 {
            let _ = println!(rt; "{} bytes are still held", self.held);
        }
        let _ = println!(rt; "{messages} messages, {} accepted", self.accepted);
    }

    // Gives every message of a feed to fresh sessions.
    pub fn give_all(&mut self, rt: &impl Print, version: u32, trace: &[u8]) {
        self.start(version);
        let mut records = Records::of(trace, FEED);
        let mut messages: usize = 0;
        for Record { message, .. } in records.by_ref() {
            let given = self.give(message, messages as u64);
            self.print_given(rt, messages, message, given);
            messages = messages.saturating_add(1);
        }
        if !records.is_empty() {
            let _ = rt.println("not a record");
        }
        self.print_counts(rt, messages);
    }
}
