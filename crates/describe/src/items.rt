// Stepping through the lists in a message.
ghost use Rattle.std.specs.Iterator.{at_most};

use columns::{Item, Position, Step};
use std::marker::PhantomData;

// The items that are left of a list in a message.
#[derive(Clone, Copy)]
pub struct Items<'a, T> {
    bytes: &'a [u8],
    at: Position,
    item: PhantomData<T>,
}

// An item of a list, and the position that it stands at.
#[derive(Clone, Copy)]
pub struct Cell<T> {
    pub item: T,
    pub from: Position,
}

impl<'a, T> Items<'a, T> {
    // So many items from an offset on.
    pub fn new(bytes: &'a [u8], offset: usize, left: usize) -> Items<'a, T> {
        Items {
            bytes,
            at: Position { offset, left },
            item: PhantomData,
        }
    }
}

impl<T: Item> Iterator for Items<'_, T> {
    type Item = Cell<T>;

    ghost remaining = { λ s. at_most s.at.left };

    fn next(&mut self) -> Option<Cell<T>> {
        let from = self.at;
        let Step { item, next } = columns::item_at::<T>(self.bytes, from);
        self.at = next;
        let item = item.ok()??;
        Some(Cell { item, from })
    }
}
