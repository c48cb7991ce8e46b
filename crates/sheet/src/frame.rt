// Grounds 21 to 24: the record's frame and its counts.
ghost use Rattle.std.specs.Prelude.{◌≡◌};
ghost use Rattle.std.specs.List.{list_any};
ghost use Rattle.sheet.specs.Grounds.{misframed, outside, miscounted, mismeasured, frame_ground};

use super::record;
use refusal::Refusal;

// The first of grounds 21 to 24.
#[tactic(auto, unfolding(crate::specs::Grounds::frame_ground, crate::specs::Grounds::misversioned))]
pub(crate) fn frame_ground(bytes: &[u8]) -> Result<(), Refusal>
    ensures { result ≡ frame_ground bytes.now }
{
    if is_misframed(bytes) {
        return Err(Refusal::SheetSize);
    }
    if record::byte_at(bytes, 2) != 1 {
        return Err(Refusal::SheetVersion);
    }
    if is_miscounted(bytes) {
        return Err(Refusal::SheetCounts);
    }
    if is_mismeasured(bytes) {
        return Err(Refusal::SheetLength);
    }
    Ok(())
}

// Ground 21: fewer than 2 bytes, not exactly 2 + L, or L = 0.
#[tactic(auto, unfolding(crate::specs::Grounds::misframed))]
fn is_misframed(bytes: &[u8]) -> bool
    ensures { result ≡ misframed bytes.now }
{
    if bytes.len() < 2 {
        return true;
    }
    let length = record::pair_at(bytes, 0) as usize;
    bytes.len() != 2 + length || length == 0
}

// Whether a number is not among least to most.
#[tactic(auto, unfolding(crate::specs::Grounds::outside))]
pub(crate) fn is_outside(x: u8, least: u8, most: u8) -> bool
    ensures { result ≡ outside least most x }
{
    !(least..=most).contains(&x)
}

// Ground 23: site or state count missing or outside its range.
fn is_miscounted(bytes: &[u8]) -> bool
    ensures { result ≡ miscounted bytes.now }
{
    let sites = record::byte_at(bytes, 3);
    if is_outside(sites, 2, 4) {
        return true;
    }
    let Some(counts) = bytes.get(4..4 + sites as usize) else {
        return true;
    };
    has_wrong_count(counts)
}

// Whether some state count is outside its range.
fn has_wrong_count(counts: &[u8]) -> bool
    ensures { result ≡ list_any (outside 1 8) counts.now }
{
    counts.iter().any(|count| is_outside(*count, 1, 8))
}

// Ground 24: no transition count, count over 64, or L not what the counts give.
#[tactic(auto, unfolding(crate::specs::Grounds::mismeasured_by))]
fn is_mismeasured(bytes: &[u8]) -> bool
    ensures { result ≡ mismeasured bytes.now }
{
    let moves_at = record::moves_at(bytes);
    let Some(moves) = bytes.get(moves_at) else {
        return true;
    };
    if 64 < *moves {
        return true;
    }
    let length = record::pair_at(bytes, 0) as usize;
    length != moves_at - 1 + 12 * *moves as usize
}
