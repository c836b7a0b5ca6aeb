#![tactic(auto)]
// The tables of a session, over memory that the caller lends: the announcements, and the open streamed transactions.
pub mod announcements;
mod range;
mod rows;
mod search;
pub mod streams;

// How many announcements there is room for.
pub const ROWS: usize = 256;
