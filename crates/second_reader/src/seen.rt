// What is seen of a message.

ghost use Rattle.std.specs.Prelude.{◌≤◌};

// Up to 16 numbers, in an array with its count, since the library uses no heap.
#[derive(Clone, Copy, PartialEq, Eq)]
pub struct Values {
    pub count: usize,
    pub numbers: [u64; 16],
    ghost room: { count ≤ 16 },
}

// The message's length, and its values: the letter, then the message's numbers in the order of its layout. A text or
// content is its start and length, a tuple its start and count. Columns of a Relation and OIDs are a start. `K` and `O`
// stand before their tuple, and an Update with no old tuple has three zeros there. An xid that is not there is 0, and a
// time is its 64 bits.
#[derive(Clone, Copy, PartialEq, Eq)]
pub struct Seen {
    pub length: usize,
    pub values: Values,
}
