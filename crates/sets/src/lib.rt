// Sets of sites. A set is a byte in which site j, of 1 to 8, has the weight 2^(j-1) (document 01, "Event record").
// Every function takes any number: a site outside 1 to 8 is in no set and has weight 0.
#![tactic(auto)]

ghost use Rattle.std.specs.Prelude.{◌≡◌};
ghost use Rattle.sets.specs.Sets.{weight_of, has, union, both, minus, with_site, without, subset, all_of, others_of, below_of, count_of, lowest_of};

// The set that holds site j alone, none for a j that no site has. 0 and no Option: `weight_of` (docs/PROMISES.md) says 0.
#[tactic(auto, using(crate::proofs::SetLaws::shifted), unfolding(crate::specs::Sets::weight_of, crate::specs::Sets::is_site))]
pub fn weight(j: u8) -> u8
    ensures { result ≡ weight_of j }
{
    match j {
        1..=8 => 1u8 << (j - 1),
        _ => 0,
    }
}

// Is site j in the set?
#[tactic(auto, unfolding(crate::specs::Sets::has, crate::specs::Sets::is_site, crate::specs::Sets::bit))]
pub fn member(m: u8, j: u8) -> bool
    ensures { result ≡ has m j }
{
    matches!(j, 1..=8) && (m >> (j - 1)) % 2 == 1
}

// The sites of either set.
#[tactic(auto, unfolding(crate::specs::Sets::union))]
pub fn union(a: u8, b: u8) -> u8
    ensures { result ≡ union a b }
{
    a | b
}

// The sites of both sets.
#[tactic(auto, unfolding(crate::specs::Sets::both))]
pub fn both(a: u8, b: u8) -> u8
    ensures { result ≡ both a b }
{
    a & b
}

// The sites of a that are not in b: a, less what the two share.
#[tactic(auto, unfolding(crate::specs::Sets::minus))]
pub fn minus(a: u8, b: u8) -> u8
    ensures { result ≡ minus a b }
{
    a ^ (a & b)
}

// The set with site j in it.
#[tactic(auto, unfolding(crate::specs::Sets::with_site))]
pub fn with(m: u8, j: u8) -> u8
    ensures { result ≡ with_site m j }
{
    union(m, weight(j))
}

// The set with site j out of it.
#[tactic(auto, unfolding(crate::specs::Sets::without))]
pub fn without(m: u8, j: u8) -> u8
    ensures { result ≡ without m j }
{
    minus(m, weight(j))
}

// Is every site of a in b?
#[tactic(auto, unfolding(crate::specs::Sets::subset))]
pub fn subset(a: u8, b: u8) -> bool
    ensures { result ≡ subset a b }
{
    a & b == a
}

// Sites 1 to n.
#[tactic(auto, using(crate::proofs::SetLaws::shifted), unfolding(crate::specs::Sets::all_of))]
pub fn all_of(n: u8) -> u8
    ensures { result ≡ all_of n }
{
    if n < 8 { (1u8 << n) - 1 } else { 255 }
}

// Sites 1 to n but for site j.
#[tactic(auto, unfolding(crate::specs::Sets::others_of))]
pub fn all_others(n: u8, j: u8) -> u8
    ensures { result ≡ others_of n j }
{
    without(all_of(n), j)
}

// The sites below site j.
#[tactic(auto, unfolding(crate::specs::Sets::below_of))]
pub fn below(j: u8) -> u8
    ensures { result ≡ below_of j }
{
    all_of(j.saturating_sub(1))
}

// How many sites are in the set.
#[tactic(auto, unfolding(crate::specs::Sets::count_of))]
pub fn count(m: u8) -> u8
    ensures { result ≡ count_of m }
{
    m.count_ones() as u8
}

// The lowest site in the set, 0 for none. 0 and no Option: `lowest_of` (docs/PROMISES.md) says 0.
#[tactic(auto, unfolding(crate::specs::Sets::lowest_of))]
pub fn lowest(m: u8) -> u8
    ensures { result ≡ lowest_of m }
{
    if m == 0 {
        0
    } else {
        m.trailing_zeros() as u8 + 1
    }
}
