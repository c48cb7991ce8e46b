// The network: at 8 * (kind - 1) + sender - 1 stands the set of receivers for which that message is outstanding. A kind is its number throughout,
// as in `Step::Deliver`: see the kinds in the crate site.

ghost use Rattle.std.specs.Prelude.{◌≡◌, ℕ, ◌+◌, ◌/◌, ◌%◌, ◌<◌, MatchOption, get_or, set};
ghost use Rattle.sets.specs.Sets.{has, union, minus, without, subset};
ghost use Rattle.run.specs.Run.{place, receivers, stopped_in};
ghost use Rattle.run.specs.Sound.{every, may_reach};

// Where the receivers of a kind of message from a sender stand, if there is such a kind and such a sender.
#[tactic(auto, unfolding(crate::specs::Run::place, crate::specs::Run::has_row, sets::specs::Sets::is_site))]
fn place(kind: u8, sender: u8) -> Option<usize>
    ensures { MatchOption result (place kind sender ≡ 72) (λ at. (at ≡ place kind sender) × (at < 72)) }
{
    if (1..=9).contains(&kind) && (1..=8).contains(&sender) {
        Some(8 * usize::from(kind - 1) + usize::from(sender - 1))
    } else {
        None
    }
}

// Is the message of this kind from this sender to site s outstanding?
pub(crate) fn holds(net: &[u8; 72], kind: u8, sender: u8, s: u8) -> bool
    ensures { result ≡ has (receivers net.now kind sender) s }
{
    let Some(at) = place(kind, sender) else {
        return false;
    };
    sets::member(net[at], s)
}

// The message of this kind from a sender to site s is taken out. Kind and sender stand apart here and below, as in `Step::Deliver`: a struct of
// the two would be made for each call and taken apart in `place`, no plainer. send differs in its set operation: one function for both would take
// that as a closure, no plainer for two lines.
pub(crate) fn take_out(net: &mut [u8; 72], kind: u8, sender: u8, s: u8)
    ensures { net.new ≡ set net.old (place kind sender) (without (receivers net.old kind sender) s) }
{
    if let Some(at) = place(kind, sender) {
        net[at] = sets::without(net[at], s);
    }
}

// Messages of one kind from a sender to a set of sites come in.
pub(crate) fn send(net: &mut [u8; 72], kind: u8, sender: u8, to: u8)
    ensures { net.new ≡ set net.old (place kind sender) (union (receivers net.old kind sender) to) }
{
    if let Some(at) = place(kind, sender) {
        net[at] = sets::union(net[at], to);
    }
}

// The messages to site s are taken out.
pub(crate) fn clear(net: &mut [u8; 72], s: u8)
    ensures { net.new ≡ stopped_in net.old s }
{
    for to in net.iter_mut() {
        *to = sets::without(*to, s);
    }
}

// The sites of 1 to n to which a message of this kind from this sender may be addressed.
#[tactic(auto, unfolding(crate::specs::Sound::may_reach, site::specs::Site::is_order))]
fn may_reach(n: u8, kind: u8, sender: u8) -> u8
    ensures { result ≡ may_reach n kind sender }
{
    if n < sender {
        return 0;
    }
    match kind {
        site::START if sender == 1 => sets::all_others(n, 1),
        site::YES | site::NO if 1 < sender => sets::weight(1),
        site::ACK => sets::below(sender),
        site::MOVE_P | site::MOVE_W | site::COMMIT | site::ABORT => sets::minus(
            sets::all_of(n),
            sets::all_of(sender),
        ),
        _ => 0,
    }
}

// Are the receivers at a place right? Most places are empty.
fn sound_entry(to: u8, n: u8, stopped: u8, at: u8) -> bool
    ensures { result ≡ subset to (minus (may_reach n (at / 8 + 1) (at % 8 + 1)) stopped) }
{
    to == 0
        || sets::subset(
            to,
            sets::minus(may_reach(n, at / 8 + 1, at % 8 + 1), stopped),
        )
}

// Is every outstanding message one that may be?
pub(crate) fn sound(net: &[u8; 72], n: u8, stopped: u8) -> bool
    ensures { result ≡ every 72 (λ (at : ℕ). subset (get_or net.now at 0) (minus (may_reach n (at / 8 + 1) (at % 8 + 1)) stopped)) }
{
    net.iter()
        .enumerate()
        .all(|(at, to)| sound_entry(*to, n, stopped, at as u8))
}
