// JUDGE: the judgement of a message by the tables (`judge_change`, `judge`). Nothing is stored.
ghost use Rattle.std.specs.Prelude.{◌≡◌, leb, Ok};
ghost use Rattle.wire.specs.Readers.{stands};
ghost use Rattle.message.specs.Layout.{id, number_of};
ghost use Rattle.catalog.specs.Opens.{is_open_in, open_count_in};
ghost use Rattle.catalog.specs.Tables.{table, used_in};
ghost use Rattle.session.specs.Events.{oids_at};
ghost use Rattle.session.specs.History.{holder_at, is_announced};
ghost use Rattle.session.specs.Rules.{rule_begin, rule_origin, rule_relation, rule_change, rule_truncate, rule_stream_start, rule_stream_end, all_seen, first_seen};
ghost use Rattle.session.specs.State.{announced_by, held_in, changed_at, visible_in, answer_in};
ghost use Rattle.session.specs.Machine.{place_in, parts, view};
ghost use Rattle.session.specs.Acts.{tuples_of, event_in};

use crate::{Act, Answer, Head, Place, Tuples, rules};
use catalog::announcements::{Announcement, Announcements};
use catalog::streams::Streams;
use message::fields;
use wire::{Reader, Refusal};

// The announcement that a change at a place sees.
pub fn visible(
    place: Place,
    rows: u16,
    announcements: &Announcements,
    oid: u32,
) -> Option<Announcement>
    ensures { announced_by result ≡ visible_in place (table rows announcements.now) oid }
{
    match place {
        Place::Idle => None,
        Place::Transaction(_) => announcements.find(rows, 0, oid),
        Place::Block(xid) => {
            let own = announcements.find(rows, xid, oid);
            own.or_else(|| announcements.find(rows, 0, oid))
        }
    }
}

// The next OID of a Truncate, and 0 where it is refused.
#[tactic(auto, using(wire::proofs::Given::number_or))]
fn next_oid(r: &mut Reader) -> u32
    ensures { (result ≡ (number_of id r.old.bytes.now r.old.next).value) × (r.new ≡ stands r.old (number_of id r.old.bytes.now r.old.next).next) }
{
    fields::id(r).unwrap_or(0)
}

// Whether each of the OIDs from `start` on is visible.
pub fn all_visible(
    place: Place,
    rows: u16,
    announcements: &Announcements,
    bytes: &[u8],
    start: usize,
    count: u32,
) -> bool
    ensures { result ≡ all_seen (visible_in place (table rows announcements.now)) (oids_at count bytes.now (Ok start)) }
{
    let mut r = Reader {
        bytes,
        next: Ok(start),
    };
    for _i in 0..count {
        let oid = next_oid(&mut r);
        if visible(place, rows, announcements, oid).is_none() {
            return false;
        }
    }
    true
}

// What the first of the OIDs from `start` on sees.
pub fn first_visible(
    place: Place,
    rows: u16,
    announcements: &Announcements,
    bytes: &[u8],
    start: usize,
    count: u32,
) -> Option<Announcement>
    ensures { announced_by result ≡ first_seen (visible_in place (table rows announcements.now)) (oids_at count bytes.now (Ok start)) }
{
    if count == 0 {
        return None;
    }
    let mut r = Reader {
        bytes,
        next: Ok(start),
    };
    let oid = next_oid(&mut r);
    visible(place, rows, announcements, oid)
}

// Whether the transaction of a place had a change.
pub fn changed_at(place: Place, changed: bool, streams: &Streams) -> bool
    ensures { result ≡ changed_at changed streams.now (holder_at place) }
{
    let holder = rules::holder_at(place);
    if holder == 0 {
        return changed;
    }
    streams.is_changed(holder)
}

// The judgement of each kind, by what the tables show.
pub fn judge_begin(place: Place, streams: &Streams, xid: u32) -> Answer
    ensures { result ≡ rule_begin place (is_open_in streams.now xid) }
{
    let open = streams.is_open(xid);
    rules::rule_begin(place, open)
}

pub fn judge_origin(place: Place, changed: bool, streams: &Streams) -> Answer
    ensures { result ≡ rule_origin place (changed_at changed streams.now (holder_at place)) }
{
    let late = changed_at(place, changed, streams);
    rules::rule_origin(place, late)
}

pub fn judge_relation(place: Place, rows: u16, announcements: &Announcements, oid: u32) -> Answer
    ensures { result ≡ rule_relation place (is_announced (held_in (table rows announcements.now) (holder_at place) oid)) (leb 256 (used_in (table rows announcements.now))) }
{
    rules::placed(place)?;
    let live = announcements.is_announced(rows, rules::holder_at(place), oid);
    let full = announcements.is_full(rows);
    rules::rule_room(live, full)
}

pub fn judge_change(head: Head, announcements: &Announcements, oid: u32, t: Tuples) -> Answer
    ensures { result ≡ rule_change (place_in head) (visible_in (place_in head) (table head.rows announcements.now) oid) (tuples_of t) }
{
    let place = rules::place_of(head);
    let n = head.rows;
    match place {
        Place::Idle => Err(Refusal {
            number: Refusal::PLACE,
            offset: 0,
        }),
        Place::Transaction(_) => {
            let seen = announcements.find(n, 0, oid);
            rules::rule_shape(seen, t)
        }
        Place::Block(_) => {
            let seen = visible(place, n, announcements, oid);
            rules::rule_shape(seen, t)
        }
    }
}

pub fn judge_truncate(
    head: Head,
    announcements: &Announcements,
    bytes: &[u8],
    start: usize,
    count: u32,
) -> Answer
    ensures { result ≡ rule_truncate (place_in head) (visible_in (place_in head) (table head.rows announcements.now)) (oids_at count bytes.now (Ok start)) }
{
    let p = rules::place_of(head);
    let n = head.rows;
    rules::placed(p)?;
    let all = all_visible(p, n, announcements, bytes, start, count);
    let first = first_visible(p, n, announcements, bytes, start, count);
    rules::rule_relations(all, first)
}

pub fn judge_stream_start(place: Place, streams: &Streams, xid: u32, first: bool) -> Answer
    ensures { result ≡ rule_stream_start place first (is_open_in streams.now xid) (leb 16 (open_count_in streams.now)) }
{
    let open = streams.is_open(xid);
    let full = streams.is_full();
    rules::rule_stream_start(place, first, open, full)
}

pub fn judge_stream_end(place: Place, streams: &Streams, xid: u32) -> Answer
    ensures { result ≡ rule_stream_end place (is_open_in streams.now xid) }
{
    let open = streams.is_open(xid);
    rules::rule_stream_end(place, open)
}

// The judgement of a message of another kind.
pub fn judge(
    head: Head,
    streams: &Streams,
    announcements: &Announcements,
    a: Act,
    bytes: &[u8],
) -> Answer
    ensures { result ≡ answer_in (view (parts head streams.now announcements.now)) (event_in a bytes.now) }
{
    let p = rules::place_of(head);
    match a {
        Act::Begin { xid, .. } => judge_begin(p, streams, xid),
        Act::Commit { lsn } => rules::rule_commit(p, lsn),
        Act::Origin => judge_origin(p, rules::flag_of(head), streams),
        Act::Relation { oid, .. } => judge_relation(p, head.rows, announcements, oid),
        Act::Truncate { start, count, .. } => {
            judge_truncate(head, announcements, bytes, start, count)
        }
        Act::Neutral => rules::rule_neutral(p),
        Act::Transactional => rules::rule_logical(p, true),
        Act::Marker => rules::rule_logical(p, false),
        Act::StreamStart { xid, first } => judge_stream_start(p, streams, xid, first == 1),
        Act::StreamStop => rules::rule_stream_stop(p),
        Act::StreamCommit { xid } => judge_stream_end(p, streams, xid),
        Act::StreamAbort { xid, .. } => judge_stream_end(p, streams, xid),
    }
}
