// APPLY: what an accepted message makes of the head and the tables (`apply_change`, `apply`). Nothing is judged.
ghost use Rattle.std.specs.Prelude.{◌≡◌, cond, List, ℕ, ◌%◌, eqb};
ghost use Rattle.catalog.specs.Opens.{open_in, close_in};
ghost use Rattle.catalog.specs.Tables.{table, put_in, drop_in, release_in};
ghost use Rattle.session.specs.declared.Place.TheVariants.{Block};
ghost use Rattle.session.specs.History.{holder_at};
ghost use Rattle.session.specs.State.{flagged_at, marked_at, state_after};
ghost use Rattle.session.specs.Machine.{place_in, flag_in, head_at, parts, view, written};
ghost use Rattle.session.specs.Acts.{event_in};

use crate::{Act, Head, Place, Shape, rules};
use catalog::announcements::{Announcement, Announcements};
use catalog::streams::Streams;

// The head that stands at a place, with a change or none, and has so many rows in use.
pub fn head_at(head: Head, place: Place, changed: bool, rows: u16) -> Head
    ensures { result ≡ head_at head place changed rows }
{
    let mut next = head;
    next.changed = u16::from(changed);
    next.rows = rows;
    match place {
        Place::Idle => {
            next.phase = Head::IDLE;
        }
        Place::Transaction(lsn) => {
            next.phase = Head::TRANSACTION;
            next.final_lsn = lsn;
        }
        Place::Block(xid) => {
            next.phase = Head::BLOCK;
            next.current_xid = xid;
        }
    }
    next
}

// A change, or a Truncate: the transaction has a change.
pub fn apply_change(head: Head, streams: &mut Streams) -> Head
    ensures head { result ≡ head_at head (place_in head) (flagged_at (place_in head) (flag_in head)) head.rows }
    ensures streams { streams.new ≡ marked_at (place_in head) streams.old }
{
    let place = rules::place_of(head);
    let flagged = rules::flag_of(head);
    match place {
        Place::Idle => head_at(head, place, flagged, head.rows),
        Place::Transaction(_) => head_at(head, place, true, head.rows),
        Place::Block(xid) => {
            streams.mark(xid);
            head_at(head, place, flagged, head.rows)
        }
    }
}

fn flagged_at(place: Place, b: bool) -> bool
    ensures { result ≡ flagged_at place b }
{
    match place {
        Place::Idle => b,
        Place::Transaction(_) => true,
        Place::Block(_) => b,
    }
}

fn mark_at(place: Place, streams: &mut Streams)
    ensures { streams.new ≡ marked_at place streams.old }
{
    match place {
        Place::Idle => {}
        Place::Transaction(_) => {}
        Place::Block(xid) => streams.mark(xid),
    }
}

fn apply_relation(
    head: Head,
    announcements: &mut Announcements,
    oid: u32,
    shape: Shape,
    tag: u64,
) -> Head
    ensures head { result ≡ head_at head (place_in head) (flag_in head) result.rows }
    ensures table { table result.rows announcements.new ≡ put_in (table head.rows announcements.old) (holder_at (place_in head)) oid tag (shape.identity % 256) (shape.columns % 65536) }
{
    let place = rules::place_of(head);
    let n = head.rows;
    let t = rules::holder_at(place);
    let said = Announcement {
        tag,
        identity: (shape.identity % 256) as u8,
        columns: (shape.columns % 65536) as u16,
    };
    let rows = announcements.put(n, t, oid, said);
    head_at(head, place, rules::flag_of(head), rows)
}

fn apply_truncate(head: Head, streams: &mut Streams) -> Head
    ensures head { result ≡ head_at head (place_in head) (flagged_at (place_in head) (flag_in head)) head.rows }
    ensures streams { streams.new ≡ marked_at (place_in head) streams.old }
{
    let place = rules::place_of(head);
    mark_at(place, streams);
    let flagged = flagged_at(place, rules::flag_of(head));
    head_at(head, place, flagged, head.rows)
}

fn open_first(streams: &mut Streams, xid: u32, first: u64)
    ensures { streams.new ≡ cond (eqb first 1) (open_in streams.old xid) streams.old }
{
    if first == 1 {
        streams.open(xid);
    }
}

fn apply_stream_start(head: Head, streams: &mut Streams, xid: u32, first: u64) -> Head
    ensures head { result ≡ head_at head (Block xid) (flag_in head) head.rows }
    ensures streams { streams.new ≡ cond (eqb first 1) (open_in streams.old xid) streams.old }
{
    open_first(streams, xid, first);
    head_at(head, Place::Block(xid), rules::flag_of(head), head.rows)
}

fn apply_stream_commit(
    head: Head,
    streams: &mut Streams,
    announcements: &mut Announcements,
    xid: u32,
) -> Head
    ensures head { result ≡ head_at head (place_in head) (flag_in head) result.rows }
    ensures streams { streams.new ≡ close_in streams.old xid }
    ensures table { table result.rows announcements.new ≡ release_in (table head.rows announcements.old) xid }
{
    let n = head.rows;
    streams.close(xid);
    let rows = announcements.release(n, xid);
    head_at(head, rules::place_of(head), rules::flag_of(head), rows)
}

fn apply_stream_abort(
    head: Head,
    streams: &mut Streams,
    announcements: &mut Announcements,
    xid: u32,
    sub: u32,
) -> Head
    ensures head { result ≡ head_at head (place_in head) (flag_in head) result.rows }
    ensures streams { streams.new ≡ cond (eqb xid sub) (close_in streams.old xid) streams.old }
    ensures table { table result.rows announcements.new ≡ cond (eqb xid sub) (drop_in (table head.rows announcements.old) xid) (table head.rows announcements.old) }
{
    let place = rules::place_of(head);
    let flagged = rules::flag_of(head);
    let n = head.rows;
    if xid == sub {
        streams.close(xid);
        let rows = announcements.drop_holder(n, xid);
        return head_at(head, place, flagged, rows);
    }
    head_at(head, place, flagged, n)
}

// What an accepted message of another kind makes of them.
pub fn apply(
    head: Head,
    streams: &mut Streams,
    announcements: &mut Announcements,
    a: Act,
    tag: u64,
) -> Head
    ensures { (xs : List ℕ) → parts result streams.new announcements.new ≡ written (parts head streams.old announcements.old) (state_after (view (parts head streams.old announcements.old)) (event_in a xs) tag) }
{
    let place = rules::place_of(head);
    let flagged = rules::flag_of(head);
    let n = head.rows;
    match a {
        Act::Begin { lsn, .. } => head_at(head, Place::Transaction(lsn), false, n),
        Act::Commit { .. } => head_at(head, Place::Idle, flagged, n),
        Act::Origin => head_at(head, place, flagged, n),
        Act::Relation { oid, shape } => apply_relation(head, announcements, oid, shape, tag),
        Act::Truncate { .. } => apply_truncate(head, streams),
        Act::Neutral => head_at(head, place, flagged, n),
        Act::Transactional => head_at(head, place, flagged, n),
        Act::Marker => head_at(head, place, flagged, n),
        Act::StreamStart { xid, first } => apply_stream_start(head, streams, xid, first),
        Act::StreamStop => head_at(head, Place::Idle, flagged, n),
        Act::StreamCommit { xid } => apply_stream_commit(head, streams, announcements, xid),
        Act::StreamAbort { xid, sub } => {
            apply_stream_abort(head, streams, announcements, xid, sub)
        }
    }
}
