// Grounds 25 to 29, about the parts of a sheet. Each is tested over the whole sheet before the next.
ghost use Rattle.std.specs.Prelude.{◌≡◌, ℕ, ◌+◌, ◌-◌, ◌*◌, ◌≤◌, not, eqb, nat_lt, get_or};
ghost use Rattle.std.specs.Int.Bits.{bit_and};
ghost use Rattle.std.specs.List.{All, list_any};
ghost use Rattle.sheet.specs.Index.{table};
ghost use Rattle.sheet.specs.Grounds.{misplaced, shares, undoes, parts_ground};
ghost use Rattle.sheet.specs.Faults.{read_beside};
ghost use Rattle.sheet.specs.declared.Transition.{Transition};

use super::{Sheet, Transition, cycle, frame};
use refusal::Refusal;

// The first of grounds 25 to 29.
#[tactic(auto, using(crate::proofs::Faults::grounds_are))]
pub(crate) fn parts_ground(sheet: &Sheet) -> Result<(), Refusal>
    requires { (sheet.now.moves ≤ 64) × (sheet.now.sites ≤ 4) }
    ensures { result ≡ parts_ground sheet.now }
{
    let moves = &sheet.transitions[..sheet.moves];
    if some_mark(&sheet.marks) {
        return Err(Refusal::SheetRange);
    }
    if some_misplaced(sheet, moves) {
        return Err(Refusal::SheetRange);
    }
    if is_unprompted(moves) {
        return Err(Refusal::ReadsNothing);
    }
    if is_contended(moves) {
        return Err(Refusal::ReadTwice);
    }
    if is_undone(sheet, moves) {
        return Err(Refusal::NotFinal);
    }
    if cycle::is_cyclic(moves) {
        return Err(Refusal::Cycle);
    }
    Ok(())
}

// Whether some mark is outside its range.
fn some_mark(marks: &[u8; 32]) -> bool
    ensures { result ≡ list_any (λ (mark : ℕ). nat_lt 2 mark) marks.now }
{
    marks.iter().any(|mark| 2 < *mark)
}

// Whether some transition has a site, a state or a vote outside its range.
fn some_misplaced(sheet: &Sheet, moves: &[Transition]) -> bool
    ensures { result ≡ list_any (misplaced sheet.now) moves.now }
{
    moves.iter().any(|t| is_misplaced(sheet, t))
}

// Ground 26: a transition reads nothing.
fn is_unprompted(moves: &[Transition]) -> bool
    ensures { result ≡ list_any (λ (t : Transition). eqb t.reads 0) moves.now }
{
    moves.iter().any(|t| t.reads == 0)
}

// Ground 25 for a transition: site, state or vote outside its range.
#[tactic(auto, unfolding(crate::specs::Grounds::misplaced))]
fn is_misplaced(sheet: &Sheet, t: &Transition) -> bool
    ensures { result ≡ misplaced sheet.now t.now }
{
    let states = state_count(sheet, t.site);
    frame::is_outside(t.site, 1, sheet.sites) || states <= t.from || states <= t.to || 1 < t.vote
}

// The number of states of a site, 0 of one that is not there, as `get_or` says.
fn state_count(sheet: &Sheet, site: u8) -> u8
    ensures { result ≡ get_or sheet.now.counts (site - 1) 0 }
{
    sheet.counts.get(place_of(site)).copied().unwrap_or(0)
}

// Ground 27: a message read by two sites. What each site's others read is put together first, so that no transition is held against each other one.
fn is_contended(moves: &[Transition]) -> bool
    requires { All (λ (t : Transition). (1 ≤ t.site) × (t.site ≤ 4)) moves.now }
    ensures { result ≡ list_any (λ (t : Transition). list_any (shares t) moves.now) moves.now }
{
    let others = reads_of_others(moves);
    some_among(&others, moves)
}

// Whether some transition reads a message that the others of its site read too.
fn some_among(others: &[u32; 4], moves: &[Transition]) -> bool
    ensures { result ≡ list_any (λ (t : Transition). not (eqb (bit_and (get_or others.now (t.site - 1) 0) t.reads) 0)) moves.now }
{
    moves.iter().any(|t| is_among(others, t))
}

// Whether a transition reads a message that the others of its site read too.
fn is_among(others: &[u32; 4], t: &Transition) -> bool
    ensures { result ≡ not (eqb (bit_and (get_or others.now (t.now.site - 1) 0) t.now.reads) 0) }
{
    let read = others.get(place_of(t.site)).copied().unwrap_or(0);
    read & t.reads != 0
}

// For each of four sites, the messages that the others read.
fn reads_of_others(moves: &[Transition]) -> [u32; 4]
    ensures { result ≡ table (λ (p : ℕ). read_beside (p + 1) moves.now) 4 }
{
    [1, 2, 3, 4].map(|site| reads_beside(moves, site))
}

// The messages that sites other than this one read.
fn reads_beside(moves: &[Transition], site: u8) -> u32
    ensures { result ≡ read_beside site moves.now }
{
    moves
        .iter()
        .filter(|t| t.site != site)
        .fold(0, |reads, t| reads | t.reads)
}

// Ground 28: a transition leads from abort to non-abort, or from commit to non-commit.
fn is_undone(sheet: &Sheet, moves: &[Transition]) -> bool
    ensures { result ≡ list_any (undoes sheet.now) moves.now }
{
    moves.iter().any(|t| is_undoing(sheet, t))
}

// Ground 28 for a transition. A mark is the sheet's byte: 1 abort, 2 commit.
#[tactic(auto, unfolding(crate::specs::Grounds::undoes))]
fn is_undoing(sheet: &Sheet, t: &Transition) -> bool
    ensures { result ≡ undoes sheet.now t.now }
{
    let to = mark_in(sheet, t.site, t.to);
    match mark_in(sheet, t.site, t.from) {
        1 => to != 1,
        2 => to != 2,
        _ => false,
    }
}

// The mark of a site's state, 0 of one that is not there, as `get_or` says.
fn mark_in(sheet: &Sheet, site: u8, state: u8) -> u8
    ensures { result ≡ get_or sheet.now.marks (8 * (site - 1) + state) 0 }
{
    let at = 8 * place_of(site) + state as usize;
    sheet.marks.get(at).copied().unwrap_or(0)
}

// The place of a site: sites count from 1, and places from 0.
fn place_of(site: u8) -> usize
    ensures { result ≡ site - 1 }
{
    site.saturating_sub(1) as usize
}
