// Stepping through a tuple, a Relation's columns and a Truncate's OIDs.
ghost use Rattle.std.specs.Prelude.{◌≡◌, [], ◌∷◌};
ghost use Rattle.message.specs.Messages.{read_message};
ghost use Rattle.capi.specs.Filled.{filled, padded, inside};
ghost use Rattle.capi.specs.Stepping.{section_of, section_start, start_numbers, position_in, step_numbers, moved_on};

use columns::{Column, Position, RelationColumn, TruncatedRelation, Which};
use message::Version;
use wire::Refusal;

// The sections. They and `OVER` are numbers: the C interface.
const NEW_TUPLE: u32 = 0;

const OLD_TUPLE: u32 = 1;

const COLUMNS: u32 = 2;

const OIDS: u32 = 3;

// Nothing is left: no refusal.
const OVER: u32 = 255;

// Where stepping through a section starts; another number is no section.
fn section_start(
    version: Version,
    in_block: bool,
    bytes: &[u8],
    section: u32,
) -> Result<Position, Refusal>
    ensures { result ≡ section_start (section_of section) bytes.now (read_message version in_block bytes.now) }
{
    match section {
        NEW_TUPLE => columns::tuple_start(version, in_block, bytes, Which::New),
        OLD_TUPLE => columns::tuple_start(version, in_block, bytes, Which::Old),
        COLUMNS => columns::relation_start(version, in_block, bytes),
        OIDS => columns::oid_start(version, in_block, bytes),
        _ => Err(Refusal {
            number: Refusal::FIELD,
            offset: 0,
        }),
    }
}

// Reads a message and starts stepping through one of its sections.
#[unsafe(no_mangle)]
pub extern "C" fn kq_column_start(
    version: u32,
    in_block: u32,
    bytes: &[u8],
    section: u32,
    position: &mut [u64; 2],
) -> u32
    ensures { filled result position.new ≡ start_numbers (section_start (section_of section) bytes.now (read_message (record { number = version }) (inside in_block) bytes.now)) }
{
    let started = section_start(Version { number: version }, in_block != 0, bytes, section);
    match started {
        Ok(p) => {
            *position = [p.offset as u64, p.left as u64];
            0
        }
        Err(r) => {
            *position = [r.offset as u64, 0];
            r.number as u32
        }
    }
}

fn over(out: &mut [u64; 5]) -> u32
    ensures { filled result out.new ≡ filled 255 (padded 5 []) }
{
    *out = [0, 0, 0, 0, 0];
    OVER
}

fn refused(refusal: Refusal, out: &mut [u64; 5]) -> u32
    ensures { filled result out.new ≡ filled refusal.number (padded 5 (refusal.offset ∷ [])) }
{
    *out = [refusal.offset as u64, 0, 0, 0, 0];
    refusal.number as u32
}

// The position that two numbers are.
fn position_in(position: &[u64; 2]) -> Position
    ensures { result ≡ position_in position.now }
{
    Position {
        offset: position[0] as usize,
        left: position[1] as usize,
    }
}

// One step through a tuple, a Relation's columns, a Truncate's OIDs.
fn tuple_step(bytes: &[u8], position: &mut [u64; 2], out: &mut [u64; 5]) -> u32
    ensures out_after { filled result out.new ≡ step_numbers 0 bytes.now position.old }
    ensures position_after { position.new ≡ moved_on 0 bytes.now position.old }
{
    let step = columns::item_at::<Column>(bytes, position_in(position));
    match step.item {
        Ok(Some(column)) => {
            *position = [step.next.offset as u64, step.next.left as u64];
            *out = [
                column.letter as u64,
                column.value.start as u64,
                column.value.length as u64,
                0,
                0,
            ];
            0
        }
        Ok(None) => over(out),
        Err(refusal) => refused(refusal, out),
    }
}

#[inline(never)]
fn relation_step(bytes: &[u8], position: &mut [u64; 2], out: &mut [u64; 5]) -> u32
    ensures out_after { filled result out.new ≡ step_numbers 2 bytes.now position.old }
    ensures position_after { position.new ≡ moved_on 2 bytes.now position.old }
{
    let step = columns::item_at::<RelationColumn>(bytes, position_in(position));
    match step.item {
        Ok(Some(column)) => {
            let bits = column.modifier.cast_unsigned() as u64;
            *position = [step.next.offset as u64, step.next.left as u64];
            *out = [
                column.key as u64,
                column.name.start as u64,
                column.name.length as u64,
                column.type_oid as u64,
                bits,
            ];
            0
        }
        Ok(None) => over(out),
        Err(refusal) => refused(refusal, out),
    }
}

#[inline(never)]
fn oid_step(bytes: &[u8], position: &mut [u64; 2], out: &mut [u64; 5]) -> u32
    ensures out_after { filled result out.new ≡ step_numbers 3 bytes.now position.old }
    ensures position_after { position.new ≡ moved_on 3 bytes.now position.old }
{
    let step = columns::item_at::<TruncatedRelation>(bytes, position_in(position));
    match step.item {
        Ok(Some(relation)) => {
            *position = [step.next.offset as u64, step.next.left as u64];
            *out = [relation.oid as u64, 0, 0, 0, 0];
            0
        }
        Ok(None) => over(out),
        Err(refusal) => refused(refusal, out),
    }
}

// Steps past what stands at a position, which may be made up.
#[unsafe(no_mangle)]
pub extern "C" fn kq_column_step(
    section: u32,
    bytes: &[u8],
    position: &mut [u64; 2],
    out: &mut [u64; 5],
) -> u32
    ensures out_after { filled result out.new ≡ step_numbers section bytes.now position.old }
    ensures position_after { position.new ≡ moved_on section bytes.now position.old }
{
    match section {
        NEW_TUPLE | OLD_TUPLE => tuple_step(bytes, position, out),
        COLUMNS => relation_step(bytes, position, out),
        OIDS => oid_step(bytes, position, out),
        _ => refused(
            Refusal {
                number: Refusal::FIELD,
                offset: 0,
            },
            out,
        ),
    }
}
