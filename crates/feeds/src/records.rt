// Records: the mark C3 4D, the rest of a head whose last four bytes are a length, and so many bytes of a message. A feed's head has the
// mark and the length; a keeper's two xids between them.
ghost use Rattle.std.specs.Prelude.{◌+◌, ◌≡◌, ◌<◌, length, IfSome};
ghost use Rattle.std.specs.Iterator.{at_most};

const MARK: [u8; 2] = [0xC3, 0x4D];

// The sizes of a feed's head and of a keeper's.
pub const FEED: usize = 6;

pub const KEPT: usize = 14;

// A message, and the byte behind the head, where its kind stands: of an empty one this is what comes behind it, if anything does.
#[derive(Clone, Copy)]
pub struct Record<'a> {
    pub message: &'a [u8],
    pub kind: Option<u8>,
}

// The records that lie one after another at the start of what is left of some bytes.
#[derive(Clone, Copy)]
pub struct Records<'a> {
    rest: &'a [u8],
    head: usize,
}

// The first record, and what is behind it.
fn split_first(bytes: &[u8], head: usize) -> Option<(Record<'_>, &[u8])>
    ensures whole { IfSome result (λ r. head + length r.0.message.now + length r.1.now ≡ length bytes.now) }
    ensures shorter { IfSome result (λ r. length r.1.now < length bytes.now) }
{
    let (head, rest) = bytes.split_at_checked(head)?;
    if !head.starts_with(&MARK) {
        return None;
    }
    let size = u32::from_be_bytes(*head.last_chunk()?);
    let (message, behind) = rest.split_at_checked(size as usize)?;
    let kind = rest.first().copied();
    Some((Record { message, kind }, behind))
}

impl<'a> Records<'a> {
    pub fn of(bytes: &'a [u8], head: usize) -> Self {
        Records { rest: bytes, head }
    }

    // Whether nothing is left.
    pub fn is_empty(&self) -> bool {
        self.rest.is_empty()
    }
}

impl<'a> Iterator for Records<'a> {
    type Item = Record<'a>;

    ghost remaining = { λ s. at_most (length s.rest.now) };

    fn next(&mut self) -> Option<Record<'a>> {
        let (record, behind) = split_first(self.rest, self.head)?;
        self.rest = behind;
        Some(record)
    }
}
