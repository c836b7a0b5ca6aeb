// The rules, over what the session says: where it stands, what is open, what is announced.
ghost use Rattle.std.specs.Prelude.{◌≡◌, true, false, not, ◌||◌, [], MatchResult};
ghost use Rattle.session.specs.Answers.{Accepted};
ghost use Rattle.session.specs.Events.{tuple};
ghost use Rattle.session.specs.History.{in_block, holder_at, is_idle, is_announced};
ghost use Rattle.session.specs.Rules.{test, rule_begin, rule_commit, rule_origin, rule_neutral, rule_logical, rule_stream_start, rule_stream_stop, rule_stream_end, fits, all_fit, shaped, refuse};
ghost use Rattle.session.specs.State.{announced_by};
ghost use Rattle.session.specs.Machine.{place_in, flag_in};
ghost use Rattle.session.specs.Acts.{tuples_of};

use crate::{Answer, Head, Place, Tuples};
use catalog::announcements::Announcement;
use message::Relation;
use wire::Refusal;

pub fn place_of(head: Head) -> Place
    ensures { result ≡ place_in head }
{
    match head.phase {
        Head::TRANSACTION => Place::Transaction(head.final_lsn),
        Head::BLOCK => Place::Block(head.current_xid),
        _ => Place::Idle,
    }
}

pub fn in_block(place: Place) -> bool
    ensures { result ≡ in_block place }
{
    matches!(place, Place::Block(_))
}

pub fn holder_at(place: Place) -> u32
    ensures { result ≡ holder_at place }
{
    match place {
        Place::Idle | Place::Transaction(_) => 0,
        Place::Block(xid) => xid,
    }
}

pub fn flag_of(head: Head) -> bool
    ensures { result ≡ flag_in head }
{
    head.changed != 0
}

// A refusal of the session's own.
fn refused(number: u8) -> Answer
    ensures { result ≡ refuse number }
{
    Err(Refusal { number, offset: 0 })
}

// A message that needs a transaction or a block, else 7.
pub fn placed(place: Place) -> Result<(), Refusal>
    ensures { MatchResult result (λ _. is_idle place ≡ false) (λ r. (is_idle place ≡ true) × (r ≡ record { number = 7; offset = 0 })) }
{
    match place {
        Place::Idle => Err(Refusal {
            number: Refusal::PLACE,
            offset: 0,
        }),
        Place::Transaction(_) | Place::Block(_) => Ok(()),
    }
}

pub fn rule_begin(place: Place, open: bool) -> Answer
    ensures { result ≡ rule_begin place «open» }
{
    match place {
        Place::Idle if open => refused(Refusal::TRANSACTION),
        Place::Idle => Ok(None),
        Place::Transaction(_) | Place::Block(_) => refused(Refusal::PLACE),
    }
}

pub fn rule_commit(place: Place, lsn: u64) -> Answer
    ensures { result ≡ rule_commit place lsn }
{
    match place {
        Place::Transaction(last) if lsn == last => Ok(None),
        Place::Transaction(_) => refused(Refusal::TRANSACTION),
        Place::Idle | Place::Block(_) => refused(Refusal::PLACE),
    }
}

pub fn rule_neutral(place: Place) -> Answer
    ensures { result ≡ rule_neutral place }
{
    match place {
        Place::Idle => refused(Refusal::PLACE),
        Place::Transaction(_) | Place::Block(_) => Ok(None),
    }
}

pub fn rule_logical(place: Place, transactional: bool) -> Answer
    ensures { result ≡ rule_logical place transactional }
{
    match place {
        Place::Idle if transactional => refused(Refusal::PLACE),
        Place::Idle | Place::Transaction(_) | Place::Block(_) => Ok(None),
    }
}

pub fn rule_origin(place: Place, changed: bool) -> Answer
    ensures { result ≡ rule_origin place changed }
{
    match place {
        Place::Idle => refused(Refusal::PLACE),
        Place::Transaction(_) | Place::Block(_) if changed => refused(Refusal::PLACE),
        Place::Transaction(_) | Place::Block(_) => Ok(None),
    }
}

pub fn rule_room(live: bool, full: bool) -> Answer
    ensures { result ≡ test (live || not full) 11 Accepted }
{
    if live || !full {
        Ok(None)
    } else {
        refused(Refusal::ANNOUNCEMENTS)
    }
}

pub fn rule_stream_start(place: Place, first: bool, open: bool, full: bool) -> Answer
    ensures { result ≡ rule_stream_start place first «open» full }
{
    match place {
        Place::Idle if first == open => refused(Refusal::TRANSACTION),
        Place::Idle if first && full => refused(Refusal::STREAMS),
        Place::Idle => Ok(None),
        Place::Transaction(_) | Place::Block(_) => refused(Refusal::PLACE),
    }
}

pub fn rule_stream_stop(place: Place) -> Answer
    ensures { result ≡ rule_stream_stop place }
{
    match place {
        Place::Idle | Place::Transaction(_) => refused(Refusal::PLACE),
        Place::Block(_) => Ok(None),
    }
}

pub fn rule_stream_end(place: Place, open: bool) -> Answer
    ensures { result ≡ rule_stream_end place «open» }
{
    match place {
        Place::Idle if open => Ok(None),
        Place::Idle => refused(Refusal::TRANSACTION),
        Place::Transaction(_) | Place::Block(_) => refused(Refusal::PLACE),
    }
}

// Whether a tuple has the columns of an announcement, and a letter that its identity allows.
pub fn tuple_fits(identity: u8, columns: u16, letter: u64, count: u64) -> bool
    ensures { result ≡ fits identity columns (tuple letter count) }
{
    let whole = identity == Relation::FULL;
    count == u64::from(columns)
        && (letter != Tuples::OLD || whole)
        && (letter != Tuples::KEY || !whole)
}

pub fn all_fit(identity: u8, columns: u16, t: Tuples) -> bool
    ensures { result ≡ all_fit identity columns (tuples_of t) }
{
    (t.old == 0 || tuple_fits(identity, columns, t.old, t.old_count))
        && tuple_fits(identity, columns, t.letter, t.count)
}

// The answer of a change that sees an announcement, or none.
pub fn rule_shape(seen: Option<Announcement>, t: Tuples) -> Answer
    ensures { result ≡ shaped (announced_by seen) (tuples_of t) }
{
    match seen {
        None => refused(Refusal::RELATION),
        Some(seen) if all_fit(seen.identity, seen.columns, t) => Ok(Some(seen)),
        Some(_) => refused(Refusal::SHAPE),
    }
}

// The answer of a Truncate, all of whose relations are visible or not, from what its first sees.
pub fn rule_relations(all: bool, first: Option<Announcement>) -> Answer
    ensures { result ≡ test all 9 (shaped (announced_by first) []) }
{
    match first {
        Some(seen) if all => Ok(Some(seen)),
        _ => refused(Refusal::RELATION),
    }
}
