// Neighbouring blocks of different streamed transactions. Where every message of both was accepted they may change places: in the other
// order each message of the trace gets the same answer, and a keeper that has room for both releases the same bytes.
use session::{Answer, Place};

// The xid of the block that is open, and of the one that ended last where nothing came behind it: none where one of its messages was
// not accepted. Then how many neighbours may change places.
#[derive(Clone, Copy)]
pub struct Turns {
    open: Option<u32>,
    last: Option<u32>,
    pairs: u64,
}

fn block_of(place: Place) -> Option<u32> {
    match place {
        Place::Block(xid) => Some(xid),
        _ => None,
    }
}

impl Turns {
    pub fn none() -> Turns {
        Turns {
            open: None,
            last: None,
            pairs: 0,
        }
    }

    pub fn pairs(self) -> u64 {
        self.pairs
    }

    fn stop(&mut self) {
        if let (Some(open), Some(last)) = (self.open, self.last) {
            if open != last {
                self.pairs = self.pairs.wrapping_add(1);
            }
        }
        self.last = self.open.take();
    }

    // After a message that is not part of a pair.
    pub fn add_break(&mut self) {
        self.open = None;
        self.last = None;
    }

    // After a message that found the session at one place and left it at another.
    pub fn add(&mut self, before: Place, answer: Answer, after: Place) {
        match (block_of(before), block_of(after)) {
            (None, Some(xid)) => self.open = Some(xid),
            (Some(_), is) if answer.is_ok() => {
                if is.is_none() {
                    self.stop();
                }
            }
            _ => self.add_break(),
        }
    }
}
