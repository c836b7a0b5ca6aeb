// The messages of feeds that lie one after another, in a plan: block after block, and behind the blocks the messages outside of them.
ghost use Rattle.std.specs.Prelude.{◌≡◌, ◌-◌, vec_len};

use crate::giving::Sessions;
use crate::notes::Note;
use crate::records::{FEED, Record, Records};
use std::alloc::{AllocError, Global};

// A plan has at most so many messages, and fewer blocks than this.
const MESSAGES: usize = 2048;

const BLOCKS: usize = 64;

// The version of the feeds.
const VERSION: u32 = 2;

// A message with its index in the recorded order, and what it got in that order and in the present one.
#[derive(Clone, Copy)]
struct Planned<'a> {
    bytes: &'a [u8],
    index: u64,
    recorded: Option<Note>,
    present: Option<Note>,
}

// A block of messages, and the xid behind the letter of the first.
#[derive(Drop)]
struct Block<'a> {
    xid: [u8; 4],
    messages: Vec<Planned<'a>>,
}

// The blocks in the order in which they are given; what is outside of blocks is one more, behind those that were recorded. How many
// messages there are, and how many of them are in blocks; whether the next one to be listed is.
#[derive(Drop)]
pub struct Plan<'a> {
    blocks: Vec<Block<'a>>,
    in_block: bool,
    pub messages: usize,
    pub in_blocks: usize,
}

// What came of an exchange: the blocks are of one transaction; or they stay, if no message of theirs was refused in either order.
#[derive(Clone, Copy, PartialEq)]
pub enum Turned {
    OneTransaction,
    Stays,
    Refused,
}

// A message that is shorter is taken to go on with zeros.
fn xid_of(message: &[u8]) -> [u8; 4] {
    let mut xid = [0u8; 4];
    for (to, from) in xid.iter_mut().zip(message.iter().skip(1)) {
        *to = *from;
    }
    xid
}

// Whether what follows a message of a kind is in a block: with a Stream Start one begins, and with a Stream Stop it ends.
pub fn stays_in_block(in_block: bool, kind: Option<u8>) -> bool {
    match kind {
        Some(b'S') => true,
        Some(b'E') => false,
        _ => in_block,
    }
}

fn is_refused(note: Option<Note>) -> bool {
    note.is_some_and(|note| note.answer.is_err())
}

impl<'a> Block<'a> {
    // Gives the messages to sessions.
    fn give(&mut self, sessions: &mut Sessions) {
        for message in self.messages.iter_mut() {
            let given = sessions.give(message.bytes, message.index);
            message.present = Some(Note::of(sessions, given));
        }
    }

    fn record(&mut self) {
        for message in self.messages.iter_mut() {
            message.recorded = message.present;
        }
    }

    // How many messages got something else than in the recorded order.
    fn others(&self) -> usize {
        self.messages
            .iter()
            .filter(|message| message.present != message.recorded)
            .count()
    }

    // Whether no message was refused in either order.
    fn is_accepted(&self) -> bool {
        self.messages.iter().all(|message| !is_refused(message.recorded)
            && !is_refused(message.present))
    }
}

impl<'a> Plan<'a> {
    fn is_inside(&mut self, record: Record<'_>) -> bool {
        let is_inside = self.in_block || record.kind == Some(b'S');
        self.in_block = stays_in_block(self.in_block, record.kind);
        is_inside
    }

    // Puts a message into the last block, which has the xid of the first that is put into it.
    fn put(&mut self, bytes: &'a [u8]) -> Result<(), AllocError> {
        let planned = Planned {
            bytes,
            index: self.messages as u64,
            recorded: None,
            present: None,
        };
        if let Some(block) = self.blocks.last_mut() {
            if block.messages.is_empty() {
                block.xid = xid_of(bytes);
            }
            block.messages.push(planned)?;
            self.messages = self.messages.saturating_add(1);
        }
        Ok(())
    }

    fn begin(&mut self, alloc: Global, first: &[u8]) -> Result<(), AllocError> {
        self.blocks.push(Block {
            xid: xid_of(first),
            messages: Vec::new(alloc),
        })?;
        Ok(())
    }

    // The blocks, as far as there is room.
    fn put_inside(&mut self, alloc: Global, records: Records<'a>) -> Result<(), AllocError> {
        for record in records {
            if !self.has_room() {
                break;
            }
            if self.is_inside(record) {
                if record.kind == Some(b'S') {
                    self.begin(alloc, record.message)?;
                }
                self.put(record.message)?;
            }
        }
        self.in_blocks = self.messages;
        Ok(())
    }

    // Those outside of blocks, as far as there is room. A block that is still open when the feeds end goes on at their start. Where no
    // message is outside, the xid is that of the first of all.
    fn put_outside(&mut self, alloc: Global, records: Records<'a>) -> Result<(), AllocError> {
        let mut ahead = records;
        let first = ahead.next().map(|record| record.message);
        self.begin(alloc, first.unwrap_or(&[]))?;
        for record in records {
            if !self.has_room() {
                break;
            }
            if !self.is_inside(record) {
                self.put(record.message)?;
            }
        }
        Ok(())
    }

    pub fn of(alloc: Global, trace: &'a [u8]) -> Result<Plan<'a>, AllocError> {
        let records = Records::of(trace, FEED);
        let mut plan = Plan {
            blocks: Vec::new(alloc),
            in_block: false,
            messages: 0,
            in_blocks: 0,
        };
        plan.put_inside(alloc, records)?;
        plan.put_outside(alloc, records)?;
        Ok(plan)
    }

    // Whether there was room for all.
    pub fn has_room(&self) -> bool {
        self.messages <= MESSAGES && self.blocks.len() <= BLOCKS
    }

    // How many blocks were recorded.
    pub fn blocks(&self) -> usize
        ensures { result ≡ vec_len self.now.blocks - 1 }
    {
        self.blocks.len().saturating_sub(1)
    }

    // Gives all in the present order, to fresh sessions.
    pub fn run(&mut self, sessions: &mut Sessions) {
        sessions.start(VERSION);
        for block in self.blocks.iter_mut() {
            block.give(sessions);
        }
    }

    // What the messages got is what they got in the recorded order.
    pub fn record(&mut self) {
        for block in self.blocks.iter_mut() {
            block.record();
        }
    }

    // The blocks at `k` and behind it change places.
    pub fn exchange(&mut self, k: usize) {
        if k < self.blocks() {
            self.blocks.swap(k, k + 1);
        }
    }

    // Where there are no two blocks, nothing changed places, which counts as one transaction.
    pub fn turned(&self, k: usize) -> Turned {
        match self.blocks.get(k..) {
            Some([a, b, ..]) if a.xid != b.xid => {
                if a.is_accepted() && b.is_accepted() {
                    Turned::Stays
                } else {
                    Turned::Refused
                }
            }
            _ => Turned::OneTransaction,
        }
    }

    // How many messages got something else than in the recorded order.
    pub fn others(&self) -> usize {
        self.blocks.iter().fold(
            0usize,
            |others, block| others.saturating_add(block.others()),
        )
    }
}
