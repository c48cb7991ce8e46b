// Event records on bytes: reading one, writing one, and rehearsing a journal of them.

ghost use Rattle.std.specs.Prelude.{◌≡◌};
ghost use Rattle.refusal.specs.Refusals.{answer_number};
ghost use Rattle.embed.specs.Bytes.{leaves};
ghost use Rattle.embed.specs.RecordCalls.{read_call, write_call, rehearse_call};

use crate::number;
use fields::Fields;
use refusal::Refusal;

// How many fields a record has.
const FIELDS: usize = 6;

// The fields of the record at a place of a journal take the first six bytes of the room.
#[tactic(auto, using(std::proofs::lemmas::Bool::Decides::nat_tests, crate::proofs::RecordReads::fits_where_clear, crate::proofs::RecordReads::read_clear, crate::proofs::RecordReads::read_refused), unfolding(crate::specs::RecordCalls::read_call))]
fn read_fields(journal: &[u8], at: usize, room: &mut [u8]) -> Result<(), Refusal>
    ensures { leaves (answer_number result) room.new ≡ read_call journal.now at room.old }
{
    if room.len() < FIELDS {
        return Err(Refusal::NoRoom);
    }
    journal::ground_at(journal, at)?;
    room[..FIELDS].copy_from_slice(&journal[at + 3..at + 9]);
    Ok(())
}

// The fields of the record at a place of a journal. Returns 0 or the refusal.
#[unsafe(no_mangle)]
pub extern "C" fn fj_record_read(journal: &[u8], at: usize, fields: &mut [u8]) -> u8
    ensures { leaves result fields.new ≡ read_call journal.now at fields.old }
{
    number(read_fields(journal, at, fields))
}

// The record of these fields, written into the nine bytes from a place on, a room and a place as C has them. Returns 0 or the refusal.
#[unsafe(no_mangle)]
#[tactic(auto, unfolding(crate::specs::RecordCalls::write_call))]
pub extern "C" fn fj_record_write(
    k: u8,
    s: u8,
    o: u8,
    m: u8,
    v: u8,
    x: u8,
    room: &mut [u8],
    at: usize,
) -> u8
    ensures { leaves result room.new ≡ write_call k s o m v x room.old at }
{
    number(journal::write_fields_at(room, at, Fields { k, s, o, m, v, x }))
}

// The rehearsal's text for a journal. Returns its length, 0 where the room is too small.
#[unsafe(no_mangle)]
#[tactic(auto, unfolding(crate::specs::RecordCalls::rehearse_call))]
pub extern "C" fn fj_rehearse(input: &[u8], text: &mut [u8]) -> usize
    ensures { leaves result text.new ≡ rehearse_call input.now text.old }
{
    transcript::rehearse(input, text)
}
