// Protocol sheets (01, "Protocol sheets"): the record, its parts, the reader with grounds 21 to 29, and the writer with 23 to 29 and 32.
// Neither knows anything of what a sheet is judged by. The grounds from 25 on are stated over the parts alone, and are those of both; the writer
// has besides what stands where a sheet has nothing.
#![tactic(auto)]

ghost use Rattle.std.specs.Prelude.{◌≡◌};
ghost use Rattle.sheet.specs.Record.{no_sheet};
ghost use Rattle.sheet.specs.Grounds.{sheet_ground, sheet_of};
ghost use Rattle.refusal.specs.Refusals.{clear};
ghost use Rattle.sheet.specs.Fine.{Fine};
ghost use Rattle.sheet.specs.Write.{write_of};
ghost use Rattle.sheet.specs.Parts.{parts_from, parts_put};

use refusal::Refusal;

mod record; // record.rt: the parts of a record
mod frame; // frame.rt: grounds 21 to 24, about the bytes
mod grounds; // grounds.rt: grounds 25 to 29, about the parts
mod cycle; // cycle.rt: the search for a cycle
mod writer; // writer.rt: the writer's grounds, and the record of parts
mod parts_bytes; // parts_bytes.rt: the parts as 810 bytes

// The parts of a sheet take so many bytes: see specs/Parts.antt.
pub const PARTS: usize = 810;

// A transition of one site (01, "Protocol sheets"): sets of messages are masks, message m at weight 2^m.
#[derive(Clone, Copy, PartialEq, Eq, Default)]
pub struct Transition {
    pub site: u8,
    pub from: u8,
    pub to: u8,
    pub vote: u8,
    pub reads: u32,
    pub writes: u32,
}

// A protocol sheet's parts: number of sites, state counts, marks at 8 * (site - 1) + state, first messages,
// number of transitions, transitions; what a sheet does not have is zero.
// Marks, sites, states and votes are bytes and no enums, here and in a transition: any byte is taken, and grounds say which are wrong. The
// number of transitions stands beside 64 places: memory is fixed, and what lies behind the number is part of the 810 bytes too (`round_trip`).
#[derive(Clone, Copy)]
pub struct Sheet {
    pub sites: u8,
    pub counts: [u8; 4],
    pub marks: [u8; 32],
    pub first: u32,
    pub moves: usize,
    pub transitions: [Transition; 64],
}

// The first ground against a record, of 21 to 29.
pub fn ground(bytes: &[u8]) -> Result<(), Refusal>
    ensures { result ≡ sheet_ground bytes.now }
{
    frame::frame_ground(bytes)?;
    grounds::parts_ground(&record::parts(bytes))
}

// The parts of a record, none where a ground from 21 to 24 stands against it. Where no ground does, they are fine. It is public and cannot fail,
// so it is no Result; nor is `from_parts`.
pub fn parts(bytes: &[u8]) -> Sheet
    ensures value { result ≡ sheet_of bytes.now }
    ensures fine { sheet_ground bytes.now ≡ clear → Fine result }
{
    if frame::frame_ground(bytes).is_err() {
        return no_sheet();
    }
    record::parts(bytes)
}

// Writes the record of a sheet's parts at the front of a room, and says how long it is. Refused, with 23 to 29 or 32, it leaves the room as it is.
pub fn write(sheet: Sheet, room: &mut [u8]) -> Result<usize, Refusal>
    ensures { (result ≡ (write_of sheet room.old).0) × (room.new ≡ (write_of sheet room.old).1) }
{
    writer::write_ground(&sheet)?;
    let length = writer::record_length(&sheet);
    if room.len() < length {
        return Err(Refusal::SheetNoRoom);
    }
    writer::put_record(room, &sheet, length);
    Ok(length)
}

// The sheet whose parts 810 bytes are; no sheet where there are more or fewer.
pub fn from_parts(bytes: &[u8]) -> Sheet
    ensures { result ≡ parts_from bytes.now }
{
    match bytes.as_array() {
        Some(parts) => parts_bytes::sheet_from(parts),
        None => no_sheet(),
    }
}

// Puts the parts of a sheet as bytes at the front of a room; one with fewer than 810 bytes stays as it is.
pub fn put_parts(sheet: Sheet, room: &mut [u8])
    ensures { room.new ≡ parts_put sheet room.old }
{
    if let Some(front) = room.first_chunk_mut() {
        parts_bytes::put_all(front, &sheet);
    }
}

// No sheet: all parts zero. Rust's `Default` has no arrays of 64, so none is derived.
fn no_sheet() -> Sheet
    ensures { result ≡ no_sheet }
{
    Sheet {
        sites: 0,
        counts: [0; 4],
        marks: [0; 32],
        first: 0,
        moves: 0,
        transitions: [Transition::default(); 64],
    }
}
