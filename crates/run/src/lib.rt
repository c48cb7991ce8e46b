// A run of n sites: their records, the stopped ones and the network, and every event of document 01's "The run".
// An event takes any run. What it cannot accept it refuses on one of 01's grounds, and the run comes back as it was.
#![tactic(auto)]

ghost use Rattle.std.specs.Prelude.{◌≡◌, true, not, ◌&&◌, ◌||◌, ℕ, ◌+◌, ◌≤◌, eqb, leb};
ghost use Rattle.sets.specs.Sets.{has, subset, below_of};
ghost use Rattle.site.specs.Site.{sound_of};
ghost use Rattle.site.specs.Step.{none_awaited};
ghost use Rattle.run.specs.Run.{fresh_site, fresh_run};
ghost use Rattle.run.specs.Sound.{every, sound_place, sound_run};
ghost use Rattle.run.specs.Event.{refused_run, taken_run, fresh_of, got_by, got_from, whole_step, halting, applied, goes_of, event_of};
ghost use Rattle.run.specs.Tested.{good_run, tested_of, the_run, gone_on};
ghost use Rattle.run.specs.Reply.{reply_from};

use actor::Actor;
use refusal::Refusal;
use site::{Answer, Counts, Outcome, Site, Step};

mod actor;
mod net;

// The network stands at 8 * (kind - 1) + sender - 1: the set of receivers for which that message is outstanding.
// The ninth row has no kind of 01 and stays empty.
#[derive(Clone, Copy)]
pub struct Run {
    pub n: u8,
    pub stopped: u8,
    pub sites: [Site; 8],
    pub net: [u8; 72],
}

// An acting site's step, a stop, or a stop inside a step, with the set of receivers whose messages still leave.
#[derive(Clone, Copy)]
pub enum Event {
    Act(u8, Step),
    Stop(u8),
    Cut(u8, Step, u8),
}

// An event's answer.
#[derive(Clone, Copy)]
pub struct Ran {
    pub run: Run,
    pub outcome: Outcome,
    pub counts: Counts,
}

// A run with what its test found. Only this crate makes one: `good` stands where the run is sound and its leaders are in order, and so stays
// sound, event by event.
// That a good run has at most eight sites is no invariant of the type: `gone_on`, the promise of `next`, makes a value of any run and any `good`.
#[derive(Clone, Copy)]
pub struct Tested {
    run: Run,
    good: bool,
}

// An event's answer, with the run as it then is.
#[derive(Clone, Copy)]
pub struct Next {
    pub tested: Tested,
    pub outcome: Outcome,
    pub counts: Counts,
}

// What an accepted event of a site does to a run: the site's record afterwards, the message that it takes out of the network (kind 0 for
// none), the messages of one kind that leave, and whether the site stops. Kind 0 is no Option: `whole_step`, `halting` and `applied`, the
// definitions under `event_of`, have these fields, and an answer tells of its messages so too.
#[derive(Clone, Copy)]
struct Effect {
    site: Site,
    got: u8,
    from: u8,
    kind: u8,
    to: u8,
    stops: bool,
}

// ---- fresh runs

// In q, following 1, all sets empty.
fn fresh_site(n: u8, i: u8) -> Site
    ensures { result ≡ fresh_site n i }
{
    Site {
        n,
        number: i,
        leader: 1,
        ..Site::default()
    }
}

// All sites fresh, no messages. Places above n are filled like the others.
fn fresh_run(n: u8) -> Run
    ensures { result ≡ fresh_run n }
{
    Run {
        n,
        stopped: 0,
        sites: [1, 2, 3, 4, 5, 6, 7, 8].map(|i| fresh_site(n, i)),
        net: [0; 72],
    }
}

// Is this the number of sites of a run?
fn is_count(n: u8) -> bool
    ensures { result ≡ (leb 2 n && leb n 8) }
{
    (2..=8).contains(&n)
}

// A run of n sites before any event; with n 0, and refused, where n is not 2 to 8. No Err in place of that run: what may not change, `fresh`
// (`fresh_of`) always gives one.
#[tactic(auto, unfolding(crate::specs::Event::fresh_of))]
pub fn fresh(n: u8) -> Ran
    ensures { result ≡ fresh_of n }
{
    if !is_count(n) {
        return fresh_run(0).refused(Refusal::NotSound);
    }
    fresh_run(n).taken(0)
}

// ---- parts of an event

// Is a record right for place i of a run?
fn sound_place(site: Site, n: u8, stopped: u8, i: u8) -> bool
    ensures { result ≡ (sound_of site && eqb site.n n && eqb site.number i && subset site.known stopped) }
{
    site.sound() && site.n == n && site.number == i && sets::subset(site.known, stopped)
}

// Does site i, if it runs and leads, know all lower sites stopped?
fn ordered_place(site: Site, stopped: u8, i: u8) -> bool
    ensures { result ≡ (has stopped i || not (eqb site.leader i) || subset (below_of i) site.known) }
{
    sets::member(stopped, i) || site.leader != i || sets::subset(sets::below(i), site.known)
}

// A site's answer, or the ground on which it refuses.
fn reply_from(answer: Answer) -> Result<Answer, Refusal>
    ensures { result ≡ reply_from answer.outcome answer }
{
    answer.outcome.told()?;
    Ok(answer)
}

// The message that a step delivers: its kind, 0 for none, and its sender. (0, 0) and no Option: `got_by` and `got_from` say 0.
fn got(step: Step) -> (u8, u8)
    ensures kind { result.0 ≡ got_by step }
    ensures sender { result.1 ≡ got_from step }
{
    match step {
        Step::Start(from, _) => (site::START, from),
        Step::Deliver(kind, from) => (kind, from),
        Step::Begin(_) | Step::Notice(_) | Step::TakeOver | Step::Conclude => (0, 0),
    }
}

// What a whole step does: the delivered message goes, even if it is passed over.
fn whole(step: Step, answer: Answer) -> Effect
    ensures { result ≡ whole_step step answer }
{
    let (got, from) = got(step);
    Effect {
        site: answer.site,
        got,
        from,
        kind: answer.kind,
        to: answer.to,
        stops: false,
    }
}

// What a stop does, after messages of a kind to some sites have left: the record stays.
fn halt(site: Site, kind: u8, to: u8) -> Effect
    ensures { result ≡ halting site kind to }
{
    Effect {
        site,
        got: 0,
        from: 0,
        kind,
        to,
        stops: true,
    }
}

// So many messages written, and nobody awaited.
fn none_awaited(written: u8) -> Counts
    ensures { result ≡ none_awaited written }
{
    Counts {
        written,
        ..Counts::default()
    }
}

impl Run {
    // The run as it was, with a ground and zero counts. It is copied field by field: a copy of the whole may be compiled to a call of memmove, and C's
    // archive is to need none but memcpy and memset.
    fn refused(&self, why: Refusal) -> Ran
        ensures { result ≡ refused_run self.now why }
    {
        Ran {
            run: Run { ..*self },
            outcome: Outcome::Refused(why),
            counts: none_awaited(0),
        }
    }

    // The run after what was taken, with so many messages written and nobody awaited.
    fn taken(self, written: u8) -> Ran
        ensures { result ≡ taken_run self written }
    {
        Ran {
            run: self,
            outcome: Outcome::Taken,
            counts: none_awaited(written),
        }
    }

    // Is every record of 1 to n right for its place?
    fn sound_places(&self) -> bool
        requires { self.now.n ≤ 8 }
        ensures { result ≡ every self.now.n (λ (i : ℕ). sound_place self.now (i + 1)) }
    {
        (1..=self.n)
            .zip(&self.sites)
            .all(|(i, site)| sound_place(*site, self.n, self.stopped, i))
    }

    // Is the run one that 01 allows?
    #[tactic(auto, unfolding(crate::specs::Sound::sound_run, crate::specs::Sound::sound_entry))]
    fn sound(&self) -> bool
        ensures { result ≡ sound_run self.now }
    {
        is_count(self.n)
            && sets::subset(self.stopped, sets::all_of(self.n))
            && self.sound_places()
            && net::sound(&self.net, self.n, self.stopped)
    }

    // Is the run sound, and does every running leader know all lower sites stopped?
    fn good(&self) -> bool
        ensures { result ≡ good_run self.now }
    {
        self.sound()
            && (1..=self.n)
                .zip(&self.sites)
                .all(|(i, site)| ordered_place(*site, self.stopped, i))
    }

    // An event of a run of at most eight sites, tested for soundness or known to be sound.
    #[tactic(auto, unfolding(crate::specs::Event::goes_of, crate::specs::Event::stop_ground, crate::specs::Event::step_ground, crate::specs::Event::is_actor))]
    fn goes(&self, event: Event) -> Ran
        requires { self.now.n ≤ 8 }
        ensures { result ≡ goes_of self.now event }
    {
        let s = match event {
            Event::Act(s, _) | Event::Stop(s) | Event::Cut(s, _, _) => s,
        };
        if !(1..=self.n).contains(&s) {
            return self.refused(Refusal::WrongNames);
        }
        let actor = Actor { run: self, s };
        match event {
            Event::Act(_, step) => actor.acts(step),
            Event::Stop(_) => actor.stops(),
            Event::Cut(_, step, x) => actor.stops_inside(step, x),
        }
    }

    // What an event of site s does is put into the run. Messages to stopped sites do not enter the network.
    fn put(mut self, s: u8, effect: Effect) -> Run
        requires { (1 ≤ s) × (s ≤ 8) }
        ensures { result ≡ applied self s effect }
    {
        self.sites[usize::from(s - 1)] = effect.site;
        net::take_out(&mut self.net, effect.got, effect.from, s);
        if effect.stops {
            self.stopped = sets::with(self.stopped, s);
            net::clear(&mut self.net, s);
        }
        let entering = sets::minus(effect.to, self.stopped);
        net::send(&mut self.net, effect.kind, s, entering);
        self
    }

    // The run is tested once, for all events to come. It is tested where it stands in the answer: a copy made after the test may be a memmove too.
    pub fn tested(self) -> Tested
        ensures { result ≡ tested_of self }
    {
        let mut tested = Tested {
            run: self,
            good: false,
        };
        tested.good = tested.run.good();
        tested
    }

    // An event happens in any run.
    #[tactic(auto, using(crate::proofs::SoundLaws::n_most), unfolding(crate::specs::Event::event_of))]
    pub fn happens(self, event: Event) -> Ran
        ensures { result ≡ event_of self event }
    {
        if !self.sound() {
            return self.refused(Refusal::NotSound);
        }
        self.goes(event)
    }
}

impl Tested {
    // The run as it stands.
    pub fn run(self) -> Run
        ensures { result ≡ the_run self }
    {
        self.run
    }

    // An event happens; a run that was not found good is tested for soundness first.
    #[tactic(auto, unfolding(crate::specs::Tested::gone_on))]
    pub fn next(self, event: Event) -> Next
        ensures { result ≡ gone_on self event }
    {
        let before = self.run;
        let good = self.good && before.n <= 8;
        let ran = if good {
            before.goes(event)
        } else {
            before.happens(event)
        };
        Next {
            tested: Tested { run: ran.run, good },
            outcome: ran.outcome,
            counts: ran.counts,
        }
    }
}
