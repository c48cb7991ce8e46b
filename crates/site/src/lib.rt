// A site of the register's commit: its record, the messages, and the site step (document 01, "Site and messages").
// A step takes any record and any step. What it cannot accept it refuses on one of 01's grounds, and the record comes back as it was.
#![tactic(auto)]

ghost use Rattle.std.specs.Prelude.{◌≡◌, ◌&&◌, eqb, ltb};
ghost use Rattle.sets.specs.Sets.{below_of, subset};
ghost use Rattle.site.specs.Site.{in_state, following, sound_of, ends_of, to_all, in_run, names_of, polls, collects, awaited_of, refused, passed, taken};
ghost use Rattle.site.specs.First.{begin_of, start_of, vote_of, tally_of};
ghost use Rattle.site.specs.Leader.{move_p_at, move_w_at, commit_at, abort_at, order_at, replied, obey_of, ack_of, over_in, take_over_of, settle_of};
ghost use Rattle.site.specs.Step.{notice_of, conclude_of, deliver_of, rule_of, done_of, kind_of, ground_of, counted, counts_of, answered, step_of};

use refusal::Refusal;

// The states: first, wait, prepared, abort, commit.
#[derive(Clone, Copy, Debug, Default, PartialEq, Eq)]
pub enum State {
    #[default]
    Q,
    W,
    P,
    A,
    C,
}

// A vote, by the number that a record has for it.
#[derive(Clone, Copy, Debug, PartialEq, Eq)]
pub enum Vote {
    Yes = 1,
    No = 2,
}

// A site's record: the number of sites, its own number, its state, the leader it follows, and four sets of other sites.
#[derive(Clone, Copy, Default)]
pub struct Site {
    pub n: u8,
    pub number: u8,
    pub state: State,
    pub leader: u8,
    pub known: u8,
    pub yes: u8,
    pub no: u8,
    pub acked: u8,
}

// What a site may be asked to do. A Start comes with the site's vote; the other messages are known by kind and sender.
#[derive(Clone, Copy)]
pub enum Step {
    Begin(Vote),
    Start(u8, Vote),
    Deliver(u8, u8),
    Notice(u8),
    TakeOver,
    Conclude,
}

// How a step or an event ends: taken, passed over, or refused. It is no Result: the theorem `never_conflict` of specs/Promise in the crate
// promise speaks of `Refused`. `told` gives the Result.
#[derive(Clone, Copy, Debug, PartialEq, Eq)]
pub enum Outcome {
    Taken,
    Passed,
    Refused(Refusal),
}

impl Outcome {
    // What it refuses.
    pub fn told(self) -> Result<(), Refusal>
        ensures { result ≡ ground_of self }
    {
        match self {
            Outcome::Refused(why) => Err(why),
            Outcome::Taken | Outcome::Passed => Ok(()),
        }
    }
}

// What a step did: the site afterwards, and one kind of message written to a set of receivers. The two are fields, with kind 0 for no message,
// as in an answer: public `Site::step` gives them so, and C gets them as two bytes.
#[derive(Clone, Copy)]
pub struct Done {
    pub site: Site,
    pub outcome: Outcome,
    pub kind: u8,
    pub to: u8,
}

// What a step reports: how many messages are written, how many sites are still awaited, and the lowest of these, 0 where nobody is.
// A number and no Option: the theorem `lowest_with_number` says when it is 0, and C gets this byte.
#[derive(Clone, Copy, Default)]
pub struct Counts {
    pub written: u8,
    pub awaited: u8,
    pub lowest: u8,
}

// A step's answer. Where nobody is written to, the kind is 0, and no Option: public `Site::step` answers so (`kind_of`), and C gets this byte.
#[derive(Clone, Copy)]
pub struct Answer {
    pub site: Site,
    pub outcome: Outcome,
    pub kind: u8,
    pub to: u8,
    pub counts: Counts,
}

// What an order of a leader does to a state: it leads to a state, is passed over, or conflicts. `Result<Option<State>, ()>` would be no
// plainer: it has three cases too, and no names for them.
#[derive(Clone, Copy, Debug, PartialEq, Eq)]
pub enum Order {
    To(State),
    Over,
    Conflict,
}

// The kinds of message, by 01's numbers. They are no enum: a kind is the number in `Step::Deliver`, which takes any (public `Site::step` and
// `names` refuse what is no kind), and it stays that number all the way, by `deliver`, `obey` and `taken` into an answer and into the network,
// whose places are computed from it (`place` in the crate run). An enum for what lies between would be a second vocabulary, and no plainer.
pub const START: u8 = 1;

pub const YES: u8 = 2;

pub const NO: u8 = 3;

pub const MOVE_P: u8 = 4;

pub const MOVE_W: u8 = 5;

pub const ACK: u8 = 6;

pub const COMMIT: u8 = 7;

pub const ABORT: u8 = 8;

// Has a message of this kind the right ends?
#[tactic(auto, unfolding(crate::specs::Site::ends_of))]
fn ends(kind: u8, from: u8, to: u8) -> bool
    ensures { result ≡ ends_of kind from to }
{
    match kind {
        START => from == 1 && 1 < to,
        YES | NO => 1 < from && to == 1,
        ACK => to < from,
        MOVE_P | MOVE_W | COMMIT | ABORT => from < to,
        _ => false,
    }
}

// The orders of a leader, state by state.
fn move_p_at(state: State) -> Order
    ensures { result ≡ move_p_at state }
{
    match state {
        State::W | State::P => Order::To(State::P),
        State::C => Order::To(State::C),
        State::Q | State::A => Order::Conflict,
    }
}

fn move_w_at(state: State) -> Order
    ensures { result ≡ move_w_at state }
{
    match state {
        State::Q | State::W | State::P => Order::To(State::W),
        State::A => Order::To(State::A),
        State::C => Order::Conflict,
    }
}

fn commit_at(state: State) -> Order
    ensures { result ≡ commit_at state }
{
    match state {
        State::P => Order::To(State::C),
        State::C => Order::Over,
        State::Q | State::W | State::A => Order::Conflict,
    }
}

fn abort_at(state: State) -> Order
    ensures { result ≡ abort_at state }
{
    match state {
        State::Q | State::W => Order::To(State::A),
        State::A => Order::Over,
        State::P | State::C => Order::Conflict,
    }
}

fn order_at(kind: u8, state: State) -> Order
    ensures { result ≡ order_at kind state }
{
    match kind {
        MOVE_P => move_p_at(state),
        MOVE_W => move_w_at(state),
        COMMIT => commit_at(state),
        _ => abort_at(state),
    }
}

impl Site {
    // The record in another state.
    fn in_state(self, state: State) -> Site
        ensures { result ≡ in_state self state }
    {
        Site { state, ..self }
    }

    // The record as a follower of this leader.
    fn following(self, leader: u8) -> Site
        ensures { result ≡ following self leader }
    {
        Site { leader, ..self }
    }

    fn refused(self, why: Refusal) -> Done
        ensures { result ≡ refused self why }
    {
        Done {
            site: self,
            outcome: Outcome::Refused(why),
            kind: 0,
            to: 0,
        }
    }

    fn passed(self) -> Done
        ensures { result ≡ passed self }
    {
        Done {
            site: self,
            outcome: Outcome::Passed,
            kind: 0,
            to: 0,
        }
    }

    fn taken(self, kind: u8, to: u8) -> Done
        ensures { result ≡ taken self kind to }
    {
        Done {
            site: self,
            outcome: Outcome::Taken,
            kind,
            to,
        }
    }

    // The step is taken into another state.
    fn moved(self, state: State, kind: u8, to: u8) -> Done
        ensures { result ≡ taken (in_state self state) kind to }
    {
        self.in_state(state).taken(kind, to)
    }

    // An order is taken: a Move is answered by an Ack to its sender.
    fn replied(self, kind: u8, from: u8) -> Done
        ensures { result ≡ replied self kind from }
    {
        match kind {
            MOVE_P | MOVE_W => self.taken(ACK, sets::weight(from)),
            _ => self.taken(0, 0),
        }
    }

    // Is the record one that 01 allows?
    #[tactic(auto, unfolding(crate::specs::Site::sound_of))]
    pub fn sound(self) -> bool
        ensures { result ≡ sound_of self }
    {
        let named = sets::union(
            sets::union(self.known, self.yes),
            sets::union(self.no, self.acked),
        );
        (2..=8).contains(&self.n)
            && (1..=self.n).contains(&self.number)
            && (1..=self.number).contains(&self.leader)
            && sets::subset(named, sets::all_others(self.n, self.number))
    }

    // Is j one of the sites 1 to n?
    #[tactic(auto, unfolding(crate::specs::Site::in_run))]
    fn in_run(self, j: u8) -> bool
        ensures { result ≡ in_run self j }
    {
        (1..=self.n).contains(&j)
    }

    // Does the step name sites and messages as 01 has them? If not, that is ground 2.
    pub fn names(self, step: Step) -> bool
        ensures { result ≡ names_of self step }
    {
        match step {
            Step::Begin(_) | Step::TakeOver | Step::Conclude => true,
            Step::Start(from, _) => self.in_run(from) && ends(START, from, self.number),
            Step::Deliver(kind, from) => self.in_run(from)
                && kind != START
                && ends(kind, from, self.number),
            Step::Notice(o) => self.in_run(o) && o != self.number,
        }
    }

    // Every other site not known stopped.
    #[tactic(auto, unfolding(crate::specs::Site::to_all))]
    fn to_all(self) -> u8
        ensures { result ≡ to_all self }
    {
        sets::minus(sets::all_others(self.n, self.number), self.known)
    }

    // Does the site gather votes?
    #[tactic(auto, unfolding(crate::specs::Site::polls))]
    fn polls(self) -> bool
        ensures { result ≡ polls self }
    {
        self.state == State::W && self.number == 1
    }

    // Does the site gather acknowledgements?
    #[tactic(auto, unfolding(crate::specs::Site::collects))]
    fn collects(self) -> bool
        ensures { result ≡ collects self }
    {
        self.leader == self.number
            && (self.state == State::P || self.state == State::W && self.number != 1)
    }

    // The sites whose vote or acknowledgement is still awaited.
    #[tactic(auto, unfolding(crate::specs::Site::awaited_of))]
    fn awaited(self) -> u8
        ensures { result ≡ awaited_of self }
    {
        if self.polls() {
            sets::minus(self.to_all(), sets::union(self.yes, self.no))
        } else if self.collects() {
            sets::minus(self.to_all(), self.acked)
        } else {
            0
        }
    }

    #[tactic(auto, unfolding(crate::specs::First::begin_of))]
    fn begin(self, vote: Vote) -> Done
        ensures { result ≡ begin_of self vote }
    {
        if self.number != 1 || self.state != State::Q {
            return self.refused(Refusal::NotAllowed);
        }
        let to = self.to_all();
        match vote {
            Vote::Yes => self.moved(State::W, START, to),
            Vote::No => self.moved(State::A, ABORT, to),
        }
    }

    #[tactic(auto, unfolding(crate::specs::First::start_of))]
    fn start(self, from: u8, vote: Vote) -> Done
        ensures { result ≡ start_of self from vote }
    {
        if from < self.leader || self.state != State::Q {
            return self.passed();
        }
        let one = sets::weight(1);
        match vote {
            Vote::Yes => self.moved(State::W, YES, one),
            Vote::No => self.moved(State::A, NO, one),
        }
    }

    // A Yes or a No is heard.
    #[tactic(auto, unfolding(crate::specs::First::vote_of))]
    fn heard(self, from: u8, vote: Vote) -> Done
        ensures { result ≡ vote_of self from vote }
    {
        if !self.polls() {
            return self.passed();
        }
        let mut next = self;
        match vote {
            Vote::Yes => next.yes = sets::with(self.yes, from),
            Vote::No => next.no = sets::with(self.no, from),
        }
        next.taken(0, 0)
    }

    // Site 1 concludes by the votes.
    #[tactic(auto, unfolding(crate::specs::First::tally_of))]
    fn tally(self) -> Done
        ensures { result ≡ tally_of self }
    {
        let to = self.to_all();
        if self.no != 0 || !sets::subset(self.known, self.yes) {
            return self.moved(State::A, ABORT, to);
        }
        if sets::subset(sets::all_others(self.n, self.number), self.yes) {
            return self.moved(State::P, MOVE_P, to);
        }
        self.refused(Refusal::NotAllowed)
    }

    // An order of a leader: Move-p, Move-w, Commit or Abort.
    #[tactic(auto, unfolding(crate::specs::Leader::obey_of))]
    fn obey(self, kind: u8, from: u8) -> Done
        ensures { result ≡ obey_of self kind from }
    {
        if from < self.leader {
            return self.passed();
        }
        match order_at(kind, self.state) {
            Order::To(state) => self.in_state(state).following(from).replied(kind, from),
            Order::Over => self.following(from).passed(),
            Order::Conflict => self.refused(Refusal::Conflict),
        }
    }

    #[tactic(auto, unfolding(crate::specs::Leader::ack_of))]
    fn acknowledged(self, from: u8) -> Done
        ensures { result ≡ ack_of self from }
    {
        if !self.collects() {
            return self.passed();
        }
        let acked = sets::with(self.acked, from);
        Site { acked, ..self }.taken(0, 0)
    }

    // It leads, acknowledgements cleared, and tells all where it stands; from q it goes to a.
    fn takes_lead(self) -> Done
        ensures { result ≡ over_in self.state self }
    {
        let to = self.to_all();
        let next = Site {
            acked: 0,
            ..self.following(self.number)
        };
        match self.state {
            State::Q => next.moved(State::A, ABORT, to),
            State::W => next.taken(MOVE_W, to),
            State::P => next.taken(MOVE_P, to),
            State::A => next.taken(ABORT, to),
            State::C => next.taken(COMMIT, to),
        }
    }

    // Does the site follow a lower one, and does it know all lower ones stopped?
    fn may_lead(self) -> bool
        ensures { result ≡ (ltb self.leader self.number && subset (below_of self.number) self.known) }
    {
        self.leader < self.number && sets::subset(sets::below(self.number), self.known)
    }

    #[tactic(auto, unfolding(crate::specs::Leader::take_over_of))]
    fn take_over(self) -> Done
        ensures { result ≡ take_over_of self }
    {
        if !self.may_lead() {
            return self.refused(Refusal::NotAllowed);
        }
        self.takes_lead()
    }

    // Has every other site acknowledged, or is it known stopped?
    fn settled(self) -> bool
        ensures { result ≡ (collects self && eqb (awaited_of self) 0) }
    {
        self.collects() && self.awaited() == 0
    }

    // A leader concludes by the acknowledgements.
    #[tactic(auto, unfolding(crate::specs::Leader::settle_of))]
    fn settle(self) -> Done
        ensures { result ≡ settle_of self }
    {
        if !self.settled() {
            return self.refused(Refusal::NotAllowed);
        }
        let to = self.to_all();
        match self.state {
            State::P => self.moved(State::C, COMMIT, to),
            _ => self.moved(State::A, ABORT, to),
        }
    }

    // Conclude, for a leader: the new site, with receivers and refusal.
    #[tactic(auto, unfolding(crate::specs::Step::conclude_of))]
    fn conclude(self) -> Done
        ensures { result ≡ conclude_of self }
    {
        if self.polls() {
            self.tally()
        } else {
            self.settle()
        }
    }

    #[tactic(auto, unfolding(crate::specs::Step::notice_of))]
    fn notice(self, o: u8) -> Done
        ensures { result ≡ notice_of self o }
    {
        if sets::member(self.known, o) {
            return self.passed();
        }
        let known = sets::with(self.known, o);
        Site { known, ..self }.taken(0, 0)
    }

    // A delivered message that is no Start.
    #[tactic(auto, unfolding(crate::specs::Step::deliver_of))]
    fn deliver(self, kind: u8, from: u8) -> Done
        ensures { result ≡ deliver_of self kind from }
    {
        match kind {
            YES => self.heard(from, Vote::Yes),
            NO => self.heard(from, Vote::No),
            ACK => self.acknowledged(from),
            _ => self.obey(kind, from),
        }
    }

    // The step's own rule.
    fn rule(self, step: Step) -> Done
        ensures { result ≡ rule_of self step }
    {
        match step {
            Step::Begin(vote) => self.begin(vote),
            Step::Start(from, vote) => self.start(from, vote),
            Step::Deliver(kind, from) => self.deliver(kind, from),
            Step::Notice(o) => self.notice(o),
            Step::TakeOver => self.take_over(),
            Step::Conclude => self.conclude(),
        }
    }

    // The grounds 1 and 2, then the rule.
    #[tactic(auto, unfolding(crate::specs::Step::done_of))]
    fn done(self, step: Step) -> Done
        ensures { result ≡ done_of self step }
    {
        if !self.sound() {
            return self.refused(Refusal::NotSound);
        }
        if !self.names(step) {
            return self.refused(Refusal::WrongNames);
        }
        self.rule(step)
    }

    // The site step.
    #[tactic(auto, unfolding(crate::specs::Step::step_of))]
    pub fn step(self, step: Step) -> Answer
        ensures { result ≡ step_of self step }
    {
        self.done(step).answered()
    }
}

impl Done {
    // What a step did, with what it reports.
    #[tactic(auto, unfolding(crate::specs::Step::answered))]
    fn answered(self) -> Answer
        ensures { result ≡ answered self }
    {
        Answer {
            site: self.site,
            outcome: self.outcome,
            kind: kind_of(self.kind, self.to),
            to: self.to,
            counts: counts_of(self.outcome, self.site, self.to),
        }
    }
}

// The kind that is reported: none where nobody is written to.
fn kind_of(kind: u8, to: u8) -> u8
    ensures { result ≡ kind_of kind to }
{
    if to == 0 { 0 } else { kind }
}

// What is reported at each outcome. A refusal reports zeros.
fn counts_of(outcome: Outcome, site: Site, to: u8) -> Counts
    ensures { result ≡ counts_of outcome site to }
{
    match outcome {
        Outcome::Taken | Outcome::Passed => counted(site, to),
        Outcome::Refused(_) => Counts::default(),
    }
}

// The messages to these receivers, and the sites that this record awaits: how many, and the lowest.
fn counted(site: Site, to: u8) -> Counts
    ensures { result ≡ counted site to }
{
    let awaited = site.awaited();
    Counts {
        written: sets::count(to),
        awaited: sets::count(awaited),
        lowest: sets::lowest(awaited),
    }
}
