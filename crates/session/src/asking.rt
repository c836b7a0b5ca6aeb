// What a session says of itself, for whoever explains its answers.
ghost use Rattle.std.specs.Prelude.{◌≡◌};
ghost use Rattle.message.specs.Messages.{read_message};
ghost use Rattle.session.specs.History.{in_block};
ghost use Rattle.session.specs.Rules.{visible};
ghost use Rattle.session.specs.State.{announced_by};
ghost use Rattle.session.specs.Machine.{version_in, parts_of, shows};

use crate::{Place, Session, heads, judging, rules};
use catalog::announcements::Announcement;
use message::{Message, Version};
use wire::Refusal;

pub fn version_of(session: Session) -> Version
    ensures { result ≡ version_in (parts_of session).head }
{
    let words = session.head;
    let head = heads::head_in(&words);
    let number = head.version;
    Version { number }
}

// Where it stands.
pub fn place_of(session: Session) -> Place
    ensures { result ≡ (shows session).place }
{
    let words = session.head;
    let head = heads::head_in(&words);
    rules::place_of(head)
}

// A message as it reads it.
pub fn read_in(session: Session, bytes: &[u8]) -> Result<Message, Refusal>
    ensures { result ≡ read_message (version_in (parts_of session).head) (in_block (shows session).place) bytes.now }
{
    let version = version_of(session);
    let place = place_of(session);
    reader::read_message(version, rules::in_block(place), bytes)
}

// The announcement of an OID that a change would see now.
pub fn visible_in(session: Session, oid: u32) -> Option<Announcement>
    ensures { announced_by result ≡ visible (shows session) oid }
{
    let words = session.head;
    let head = heads::head_in(&words);
    let n = head.rows;
    let place = rules::place_of(head);
    judging::visible(place, n, &session.announcements, oid)
}
