// What `read_message` answers, with the kind that is expected tried first.
ghost use Rattle.std.specs.Prelude.{◌≡◌, ℕ, true, refl};
ghost use Rattle.message.specs.declared.kinds.Kind.{Kind};
ghost use Rattle.message.specs.Kinds.{first_version, letter_of, begin, commit, insert, update, delete};
ghost use Rattle.message.specs.Messages.{read_kind, read_message};

use crate::{changes, transactions};
use message::{Begin, Commit, Delete, Insert, Message, Update, Version};
use wire::Refusal;

// What this crate alone can make, so that nobody else calls a reader that asks for no version.
#[derive(Clone, Copy)]
pub struct Inside {
    only: (),
}

// A kind that most messages are of, and that every version has.
pub trait Common {
    ghost kind: { Kind };

    ghost LETTER: { ℕ };

    const LETTER: u8;

    fn read(bytes: &[u8], in_block: bool, inside: Inside) -> Result<Message, Refusal>
        ensures { result ≡ read_kind kind in_block bytes.now };

    ghost since: { first_version kind ≡ 1 };

    ghost named: { LETTER ≡ letter_of kind };
}

impl Common for Begin {
    ghost kind = { begin };

    ghost LETTER = { letter_of begin };

    const LETTER: u8 = b'B';

    #[tactic(auto, unfolding(message::specs::Messages::read_kind))]
    fn read(bytes: &[u8], _in_block: bool, _inside: Inside) -> Result<Message, Refusal> {
        transactions::read_begin(bytes)
    }

    ghost since = { refl };

    ghost named = { refl };
}

impl Common for Commit {
    ghost kind = { commit };

    ghost LETTER = { letter_of commit };

    const LETTER: u8 = b'C';

    #[tactic(auto, unfolding(message::specs::Messages::read_kind))]
    fn read(bytes: &[u8], _in_block: bool, _inside: Inside) -> Result<Message, Refusal> {
        transactions::read_commit(bytes)
    }

    ghost since = { refl };

    ghost named = { refl };
}

impl Common for Insert {
    ghost kind = { insert };

    ghost LETTER = { letter_of insert };

    const LETTER: u8 = b'I';

    fn read(bytes: &[u8], in_block: bool, _inside: Inside) -> Result<Message, Refusal> {
        changes::read_insert(bytes, in_block)
    }

    ghost since = { refl };

    ghost named = { refl };
}

impl Common for Update {
    ghost kind = { update };

    ghost LETTER = { letter_of update };

    const LETTER: u8 = b'U';

    fn read(bytes: &[u8], in_block: bool, _inside: Inside) -> Result<Message, Refusal> {
        changes::read_update(bytes, in_block)
    }

    ghost since = { refl };

    ghost named = { refl };
}

impl Common for Delete {
    ghost kind = { delete };

    ghost LETTER = { letter_of delete };

    const LETTER: u8 = b'D';

    fn read(bytes: &[u8], in_block: bool, _inside: Inside) -> Result<Message, Refusal> {
        changes::read_delete(bytes, in_block)
    }

    ghost since = { refl };

    ghost named = { refl };
}

// Whether nothing is refused before the letter and this is the letter: then a kind that every version has is read.
fn opens_with(version: Version, in_block: bool, bytes: &[u8], letter: u8) -> bool
    ensures { result ≡ true → (k : Kind) → first_version k ≡ 1 → letter ≡ letter_of k → read_kind k in_block bytes.now ≡ read_message version in_block bytes.now }
{
    if !version.allows(in_block) {
        return false;
    }
    if message::LARGEST < bytes.len() {
        return false;
    }
    if bytes.len() == 0 {
        return false;
    }
    bytes[0] == letter
}

pub fn expecting<M: Common>(
    version: Version,
    in_block: bool,
    bytes: &[u8],
) -> Result<Message, Refusal>
    ensures { result ≡ read_message version in_block bytes.now }
{
    if opens_with(version, in_block, bytes, M::LETTER) {
        M::read(bytes, in_block, Inside { only: () })
    } else {
        crate::read_message(version, in_block, bytes)
    }
}
