// The parts of a sheet as 810 bytes: read from them, and put into a lent room.
ghost use Rattle.std.specs.Prelude.{◌≡◌};
ghost use Rattle.sheet.specs.Parts.{parts_bytes, parts_in};

use super::{PARTS, Sheet, record, writer};
use text::Page;

// The sheet that 810 bytes tell.
pub(crate) fn sheet_from(bytes: &[u8; PARTS]) -> Sheet
    ensures { result ≡ parts_in bytes.now }
{
    let mut marks = [0; 32];
    marks.copy_from_slice(&bytes[5..37]);
    Sheet {
        sites: bytes[0],
        counts: [bytes[1], bytes[2], bytes[3], bytes[4]],
        marks,
        first: record::word_at(bytes, 37),
        moves: bytes[41] as usize,
        transitions: record::transitions_of(&bytes[42..]),
    }
}

// Puts the parts in a room of as many bytes.
pub(crate) fn put_all(room: &mut [u8; PARTS], sheet: &Sheet)
    ensures { room.new ≡ parts_bytes sheet.now }
{
    let mut page = Page { text: room, at: 0 };
    page.put(&[sheet.sites]);
    page.put(&sheet.counts);
    page.put(&sheet.marks);
    writer::put_middle(&mut page, sheet.first, (sheet.moves % 256) as u8);
    writer::put_transitions(&mut page, &sheet.transitions);
}
