// The parts of a record, read where 01's paragraph "Record" puts them. Until the frame is tested a byte past the end counts as 0.
ghost use Rattle.std.specs.Prelude.{◌≡◌, ℕ, ◌+◌, ◌*◌, ◌/◌, ◌≤◌, length, get_or};
ghost use Rattle.sheet.specs.Index.{table};
ghost use Rattle.sheet.specs.Record.{byte, four_at, sites_of, state_count, state_counts, states_before, moves_at, mark_read, transition_from, transition_in, parts_of};
ghost use Rattle.refusal.specs.Refusals.{clear};
ghost use Rattle.sheet.specs.Grounds.{frame_ground};

use super::{Sheet, Transition};
use std::array;

// A byte of the record, 0 past its end, as `byte` says.
pub(crate) fn byte_at(bytes: &[u8], at: usize) -> u8
    ensures { result ≡ byte bytes.now at }
{
    bytes.get(at).copied().unwrap_or(0)
}

// Two bytes that are there, big-endian.
pub(crate) fn pair_at(bytes: &[u8], at: usize) -> u16
    requires { at + 2 ≤ length bytes.now }
    ensures { result ≡ byte bytes.now at * 256 + byte bytes.now (at + 1) }
{
    u16::from_be_bytes([bytes[at], bytes[at + 1]])
}

// Four bytes that are there, big-endian.
pub(crate) fn word_at(bytes: &[u8], at: usize) -> u32
    requires { at + 4 ≤ length bytes.now }
    ensures { result ≡ four_at bytes.now at }
{
    u32::from_be_bytes([bytes[at], bytes[at + 1], bytes[at + 2], bytes[at + 3]])
}

// The state count of the site at place i, 0 for an absent site.
#[tactic(auto, using(std::proofs::lemmas::Bool::Decides::nat_tests), unfolding(crate::specs::Record::state_count))]
fn count_of(bytes: &[u8], i: usize) -> u8
    ensures { result ≡ state_count bytes.now i }
{
    let sites = byte_at(bytes, 3) as usize;
    if i < sites { byte_at(bytes, 4 + i) } else { 0 }
}

// The state counts of four sites.
pub(crate) fn counts_of(bytes: &[u8]) -> [u8; 4]
    ensures { result ≡ state_counts bytes.now }
{
    array::from_fn(|i| count_of(bytes, i))
}

// The states of all sites.
pub(crate) fn states_of(counts: [u8; 4]) -> usize
    ensures { (result ≡ states_before counts 4) × (result ≤ 1020) }
{
    counts.iter().map(|count| usize::from(*count)).sum()
}

// Where the number of transitions stands.
pub(crate) fn moves_at(bytes: &[u8]) -> usize
    ensures { (result ≡ moves_at (sites_of bytes.now) (state_counts bytes.now)) × (8 ≤ result) × (result ≤ 1283) }
{
    let sites = byte_at(bytes, 3) as usize;
    let counts = counts_of(bytes);
    4 + sites + states_of(counts) + 4
}

// The marks at the 32 places. In the record they follow each other, site by site.
fn marks_of(bytes: &[u8], sites: u8, counts: &[u8; 4]) -> [u8; 32]
    requires { ((i : ℕ) → get_or counts.now i 0 ≤ 8) × (4 + sites + states_before counts.now 4 ≤ length bytes.now) }
    ensures { result ≡ table (mark_read bytes.now sites counts.now) 32 }
{
    let mut marks = [0; 32];
    let mut at = 4 + sites as usize;
    for (i, count) in counts.iter().enumerate() {
        let states = *count as usize;
        let read = &bytes[at..at + states];
        marks[8 * i..8 * i + states].copy_from_slice(read);
        at += states;
    }
    marks
}

// The transition whose twelve bytes these are.
fn transition_from(row: &[u8; 12]) -> Transition
    ensures { result ≡ transition_from row.now 0 }
{
    let [site, from, to, vote, r0, r1, r2, r3, w0, w1, w2, w3] = *row;
    Transition {
        site,
        from,
        to,
        vote,
        reads: u32::from_be_bytes([r0, r1, r2, r3]),
        writes: u32::from_be_bytes([w0, w1, w2, w3]),
    }
}

// The transitions whose rows of twelve bytes stand here, and none at the places beyond them. Most sheets have few, so it goes over the rows, and not
// over the 64 places; by number, since a transition has the place of its row.
pub(crate) fn transitions_of(bytes: &[u8]) -> [Transition; 64]
    ensures { result ≡ table (transition_in bytes.now 0 (length bytes.now / 12)) 64 }
{
    let (rows, _) = bytes.as_chunks();
    let mut transitions = [Transition::default(); 64];
    for k in 0..rows.len().min(64) {
        transitions[k] = transition_from(&rows[k]);
    }
    transitions
}

// The parts of a record against which no ground from 21 to 24 stands.
pub(crate) fn parts(bytes: &[u8]) -> Sheet
    requires { frame_ground bytes.now ≡ clear }
    ensures { result ≡ parts_of bytes.now }
{
    let sites = byte_at(bytes, 3);
    let counts = counts_of(bytes);
    let at = moves_at(bytes);
    let first = word_at(bytes, at - 4);
    let moves = byte_at(bytes, at) as usize;
    let marks = marks_of(bytes, sites, &counts);
    let rows = &bytes[at + 1..];
    let transitions = transitions_of(rows);
    Sheet {
        sites,
        counts,
        marks,
        first,
        moves,
        transitions,
    }
}
