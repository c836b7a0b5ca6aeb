// What the readers, the steps and the writer make of one message, and what is said of it where they differ.

use crate::answers::{self, Answer, Hex, Place, Told};
use crate::{Tally, flat, steps};
use message::{Message, Version};
use wire::Refusal;

const LAST: usize = usize::MAX;

fn read(place: Place, bytes: &[u8]) -> Result<Message, Refusal> {
    let version = Version {
        number: place.version,
    };
    reader::read_message(version, place.in_block, bytes)
}

fn second_read(place: Place, bytes: &[u8]) -> Answer {
    second_reader::read(place.version, place.in_block, bytes).map_err(answers::refusal)
}

// Gives bytes to both readers.
pub fn is_read(rt: &impl Print, place: Place, bytes: &[u8], answer: &[u8]) -> bool {
    let first = flat::seen(read(place, bytes), bytes);
    let second = second_read(place, bytes);
    let is_agreed = first == second && (answer.is_empty() || Told::from(first).is_said(answer));
    if !is_agreed {
        let first = Told::from(first);
        let second = Told::from(second);
        let bytes = Hex(bytes);
        let _ = println!(rt; "  {place} {bytes} reader {first} second {second}");
    }
    is_agreed
}

// Steps through what the bytes have, or to their refusal.
pub fn is_stepped(rt: &impl Print, place: Place, bytes: &[u8]) -> bool {
    let is_agreed = steps::agrees(place, bytes, second_read(place, bytes));
    if !is_agreed {
        let bytes = Hex(bytes);
        let _ = println!(rt; "  {place} {bytes} steps");
    }
    is_agreed
}

fn is_stepped_from(rt: &impl Print, place: Place, bytes: &[u8], at: usize) -> bool {
    let is_agreed = steps::agrees_at(bytes, at);
    if !is_agreed {
        let bytes = Hex(bytes);
        let _ = println!(rt; "  {place} {bytes} steps from {at}");
    }
    is_agreed
}

// Steps from each offset of the message, from those past it, and from the last that there is.
pub fn run_positions(rt: &impl Print, tally: &mut Tally, place: Place, bytes: &[u8]) {
    tally.count(is_stepped_from(rt, place, bytes, LAST));
    for at in 0..bytes.len() + 2 {
        tally.count(is_stepped_from(rt, place, bytes, at));
    }
}

// Writes the message that the bytes are, if they are one.
pub fn run_written<F: Fn(Place, Message, &[u8]) -> bool>(
    rt: &impl Print,
    tally: &mut Tally,
    place: Place,
    bytes: &[u8],
    is_written: F,
)
    requires { F.IsAlwaysCallable is_written }
{
    let Ok(message) = read(place, bytes) else {
        return;
    };
    let is_good = is_written(place, message, bytes);
    if !is_good {
        let bytes = Hex(bytes);
        let _ = println!(rt; "  {place} {bytes} written");
    }
    tally.count(is_good);
}
