// Held bytes, any: whole records from the front, and what is none, which is one piece to the end and nobody's.
ghost use Rattle.std.specs.Prelude.{◌≡◌, None, List, ℕ, ◌+◌, ◌≤◌, length, take, drop};
ghost use Rattle.std.proofs.lemmas.List.Edits.{sets};
ghost use Rattle.keeper.specs.Rules.{kept, record_of, laid};
ghost use Rattle.keeper.specs.Records.{header_of, chosen, hold, taken, removed};
ghost use Rattle.keeper.specs.Records as records;

use crate::{Header, Xids};
use wire::{Reader, Refusal};

const MARK: u16 = 0xC34D;

// The number of 32 bits at a place.
#[tactic(auto, using(wire::proofs::Given::number_or))]
fn word(bytes: &[u8], at: usize) -> u32
    ensures { result ≡ records.word bytes.now at }
{
    let mut r = Reader {
        bytes,
        next: Ok(at),
    };
    r.number::<u32>(0, u32::MAX, Refusal::FIELD).unwrap_or(0)
}

// The piece at the start of the bytes.
#[tactic(auto, using(wire::proofs::Given::number_or), unfolding(crate::specs::Records::header_of))]
fn header(bytes: &[u8]) -> Header
    ensures { result ≡ header_of bytes.now }
{
    let none = Header {
        size: bytes.len(),
        xids: None,
    };
    if bytes.len() < 14 {
        return none;
    }
    let mut r = Reader { bytes, next: Ok(0) };
    if r.number::<u16>(0, u16::MAX, Refusal::FIELD).unwrap_or(0) != MARK {
        return none;
    }
    let size = 14 + word(bytes, 10) as usize;
    if bytes.len() < size {
        return none;
    }
    let xids = Xids {
        top: word(bytes, 2),
        own: word(bytes, 6),
    };
    Header {
        size,
        xids: Some(xids),
    }
}

// Whether a piece is a record of a transaction: any, or one under exactly the xid that is named.
fn is_chosen(xid: u32, under: Option<u32>, r: Header) -> bool
    ensures { result ≡ chosen xid under r }
{
    match (r.xids, under) {
        (None, _) => false,
        (Some(x), None) => x.top == xid,
        (Some(x), Some(sub)) => x.own == sub && x.top == xid,
    }
}

// Where the held bytes end: a made-up number goes no further than the buffer.
fn end_of(held: usize, room: usize) -> usize
    ensures { (result ≤ room) × ((xs : List ℕ) → length xs ≡ room → take result xs ≡ take held xs) }
{
    held.min(room)
}

// How many bytes the records of a transaction have. This loop and the next two go from piece to piece and not by an index: how long each is
// stands in the buffer, and the next two change the buffer between their steps, which an iterator over it would forbid.
pub fn size_of(buffer: &[u8], held: usize, xid: u32) -> usize
    ensures { result ≡ length (taken xid None (hold buffer.now held)) }
{
    let end = end_of(held, buffer.len());
    let mut n: usize = 0;
    let mut at: usize = 0;
    while at < end {
        let r = header(&buffer[at..end]);
        let size = r.size;
        let stop = at + size;
        if is_chosen(xid, None, r) {
            n += size;
        }
        at = stop;
    }
    n
}

// A piece that stays is moved down to where the packed ones end: where they end then.
fn pack(buffer: &mut [u8], to: usize, from: usize, size: usize) -> usize
    requires { (to ≤ from) × (from + size ≤ length buffer.old) }
    ensures { hold buffer.new result ≡ hold (sets buffer.old to (take size (drop from buffer.old))) (to + size) }
{
    let end = to + size;
    if from <= to {
        return end;
    }
    copying::move_down(buffer, to, from, size);
    end
}

// Moves the records of a transaction to the start of an output that has room for them, and closes the gaps: how many bytes are held then.
pub fn release(buffer: &mut [u8], held: usize, xid: u32, out: &mut [u8]) -> usize
    requires { length (taken xid None (hold buffer.old held)) ≤ length out.old }
    ensures { (out.new ≡ laid (taken xid None (hold buffer.old held)) out.old) × (hold buffer.new result ≡ removed xid None (hold buffer.old held)) }
{
    let end = end_of(held, buffer.len());
    let mut n: usize = 0;
    let mut to: usize = 0;
    let mut from: usize = 0;
    while from < end {
        let r = header(&buffer[from..end]);
        let size = r.size;
        let stop = from + size;
        if is_chosen(xid, None, r) {
            copying::lay_part(&mut out[n..], &buffer[from..stop]);
            n += size;
        } else {
            to = pack(buffer, to, from, size);
        }
        from = stop;
    }
    to
}

// Takes records of a transaction away, all or those under exactly the xid that is named, and closes the gaps: how many bytes are held then.
pub fn remove(buffer: &mut [u8], held: usize, xid: u32, under: Option<u32>) -> usize
    ensures { hold buffer.new result ≡ removed xid under (hold buffer.old held) }
{
    let end = end_of(held, buffer.len());
    let mut to: usize = 0;
    let mut from: usize = 0;
    while from < end {
        let r = header(&buffer[from..end]);
        let size = r.size;
        let stop = from + size;
        if !is_chosen(xid, under, r) {
            to = pack(buffer, to, from, size);
        }
        from = stop;
    }
    to
}

// A record behind what is held, where there is room: how many bytes are held then.
pub fn append(buffer: &mut [u8], held: usize, top: u32, own: u64, bytes: &[u8]) -> usize
    requires { held + (14 + length bytes.now) ≤ length buffer.old }
    ensures { hold buffer.new result ≡ hold (sets buffer.old held (record_of (kept top own bytes.now))) (held + (14 + length bytes.now)) }
{
    copying::lay_number(&mut buffer[held..], 2, u64::from(MARK));
    copying::lay_number(&mut buffer[held + 2..], 4, u64::from(top));
    copying::lay_number(&mut buffer[held + 6..], 4, own);
    copying::lay_number(&mut buffer[held + 10..], 4, bytes.len() as u64);
    copying::lay_part(&mut buffer[held + 14..], bytes);
    held + 14 + bytes.len()
}
