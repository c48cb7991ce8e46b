// Writing a sheet (02, Ask 3): the grounds against its parts, and its record in a lent room.
ghost use Rattle.std.specs.Prelude.{◌≡◌, ℕ, ◌+◌, ◌/◌, ◌%◌, ◌≤◌, ◌<◌, ◌^◌, length, get_or, take, drop};
ghost use mathlib.Core.List.{◌∷◌, ◌++◌, flat_map};
ghost use Rattle.refusal.specs.Refusals.{clear};
ghost use Rattle.text.specs.Page.{Written};
ghost use Rattle.sheet.specs.Index.{some_below};
ghost use Rattle.sheet.specs.Write.{middle_bytes, transition_bytes, marks_for, record_of, wrong_count, wrong_counts, filled, wrong_moves, stray_mark, write_ground};

use super::{Sheet, Transition, frame, grounds, record};
use refusal::Refusal;
use text::Page;

// The first of grounds 23 to 29 against the parts.
pub(crate) fn write_ground(sheet: &Sheet) -> Result<(), Refusal>
    ensures { result ≡ write_ground sheet.now }
{
    if has_wrong_counts(sheet) {
        return Err(Refusal::SheetCounts);
    }
    if has_wrong_moves(sheet) {
        return Err(Refusal::SheetLength);
    }
    if has_stray_mark(&sheet.counts, &sheet.marks) {
        return Err(Refusal::SheetRange);
    }
    grounds::parts_ground(sheet)
}

// Ground 23: site or state count outside its range, or an absent site has a count.
fn has_wrong_counts(sheet: &Sheet) -> bool
    ensures { result ≡ wrong_counts sheet.now }
{
    let sites = sheet.sites as usize;
    frame::is_outside(sheet.sites, 2, 4)
        || sheet
            .counts
            .iter()
            .enumerate()
            .any(|(i, count)| is_wrong_count(*count, i < sites))
}

// Whether a state count is not 1 to 8, or, of a site that is not there, not 0.
fn is_wrong_count(count: u8, there: bool) -> bool
    ensures { result ≡ wrong_count there count }
{
    if there {
        frame::is_outside(count, 1, 8)
    } else {
        count != 0
    }
}

// Ground 24: over 64 transitions, or one beyond their number.
fn has_wrong_moves(sheet: &Sheet) -> bool
    ensures { result ≡ wrong_moves sheet.now }
{
    if 64 < sheet.moves {
        return true;
    }
    let beyond = &sheet.transitions[sheet.moves..];
    beyond.iter().any(is_filled)
}

// Whether a field of a transition is not 0.
fn is_filled(t: &Transition) -> bool
    ensures { result ≡ filled t.now }
{
    *t != Transition::default()
}

// Ground 25 beyond the reader's: whether a state that is not there has a mark.
fn has_stray_mark(counts: &[u8; 4], marks: &[u8; 32]) -> bool
    ensures { result ≡ some_below (stray_mark counts.now marks.now) 32 }
{
    marks.iter().enumerate().any(|(k, mark)| {
        let states = counts[k / 8] as usize;
        states <= k % 8 && *mark != 0
    })
}

// The length of the record of parts that have no ground against them.
pub(crate) fn record_length(sheet: &Sheet) -> usize
    requires { write_ground sheet.now ≡ clear }
    ensures { (result ≡ length (record_of sheet.now)) × (2 ≤ result) × (result < 2 ^ 16) }
{
    let sites = sheet.sites as usize;
    4 + sites + record::states_of(sheet.counts) + 5 + 12 * sheet.moves
}

// A transition's twelve bytes.
fn row_of(t: Transition) -> [u8; 12]
    ensures { result ≡ transition_bytes t }
{
    let [r0, r1, r2, r3] = t.reads.to_be_bytes();
    let [w0, w1, w2, w3] = t.writes.to_be_bytes();
    [t.site, t.from, t.to, t.vote, r0, r1, r2, r3, w0, w1, w2, w3]
}

// Puts transitions, twelve bytes each, one after another.
pub(crate) fn put_transitions(page: &mut Page, moves: &[Transition])
    requires { page.old.at + length (flat_map transition_bytes moves.now) ≤ length page.old.text.now }
    ensures { Written page.old (flat_map transition_bytes moves.now) page.new }
{
    for t in moves {
        page.put(&row_of(*t));
    }
}

// Puts the length of what follows it, version, number of sites and state counts.
fn put_head(page: &mut Page, follows: u16, sites: u8, counts: &[u8; 4])
    requires { (sites ≤ 4) × (page.old.at + 4 + sites ≤ length page.old.text.now) }
    ensures { Written page.old (follows / 256 ∷ follows % 256 ∷ 1 ∷ sites ∷ take sites counts.now) page.new }
{
    page.put(&follows.to_be_bytes());
    page.put(&[1, sites]);
    page.put(&counts[..sites as usize]);
}

// Puts the marks of the states that are there, site by site.
fn put_marks(page: &mut Page, counts: &[u8; 4], marks: &[u8; 32])
    requires { ((i : ℕ) → get_or counts.now i 0 ≤ 8) × (page.old.at + length (marks_for counts.now marks.now) ≤ length page.old.text.now) }
    ensures { Written page.old (marks_for counts.now marks.now) page.new }
{
    for (i, count) in counts.iter().enumerate() {
        let from = 8 * i;
        let end = from + *count as usize;
        page.put(&marks[from..end]);
    }
}

// Puts the first messages and the number of transitions.
pub(crate) fn put_middle(page: &mut Page, first: u32, moves: u8)
    requires { page.old.at + 5 ≤ length page.old.text.now }
    ensures { Written page.old (middle_bytes first moves) page.new }
{
    page.put(&first.to_be_bytes());
    page.put(&[moves]);
}

// Puts the record of parts that have no ground against them at the front of a room that is large enough.
pub(crate) fn put_record(room: &mut [u8], sheet: &Sheet, size: usize)
    requires { (write_ground sheet.now ≡ clear) × (size ≡ length (record_of sheet.now)) × (size ≤ length room.old) }
    ensures { room.new ≡ record_of sheet.now ++ drop size room.old }
{
    let mut page = Page { text: room, at: 0 };
    put_head(&mut page, (size - 2) as u16, sheet.sites, &sheet.counts);
    put_marks(&mut page, &sheet.counts, &sheet.marks);
    put_middle(&mut page, sheet.first, sheet.moves as u8);
    put_transitions(&mut page, &sheet.transitions[..sheet.moves]);
}
