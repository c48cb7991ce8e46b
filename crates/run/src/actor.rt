// The site that acts in an event: what it is asked for, and what its step or its stop does.

ghost use Rattle.std.specs.Prelude.{◌≡◌, ◌≤◌};
ghost use Rattle.sets.specs.Sets.{minus};
ghost use Rattle.run.specs.Run.{site_at};
ghost use Rattle.run.specs.Event.{goes_of};
ghost use Rattle.run.specs.declared.Event.{Event};
ghost use Rattle.run.specs.Reply.{there_in, step_ground_in, reply_of};

use crate::{Ran, Run, halt, net, reply_from, whole};
use refusal::Refusal;
use site::{Answer, Site, Step};

// A site that acts, and the run in which it does. It is one of 1 to n, of which there are at most eight, so that its record stands at s - 1.
#[derive(Clone, Copy)]
pub(crate) struct Actor<'a> {
    pub(crate) run: &'a Run,
    pub(crate) s: u8,
    ghost first: { 1 ≤ s },
    ghost last: { s ≤ run.now.n },
    ghost most: { run.now.n ≤ 8 },
}

impl Actor<'_> {
    // The site's record.
    fn site(&self) -> Site
        ensures { result ≡ site_at self.now.run.now self.now.s }
    {
        self.run.sites[usize::from(self.s - 1)]
    }

    // Is there what a step is about? A delivered message is outstanding; a noticed site is among the news, the stopped sites that the
    // actor does not know of.
    fn is_there(&self, step: Step) -> bool
        ensures { result ≡ there_in step self.now.s (minus self.now.run.now.stopped (site_at self.now.run.now self.now.s).known) self.now.run.now.net }
    {
        match step {
            Step::Start(from, _) => net::holds(&self.run.net, site::START, from, self.s),
            Step::Deliver(kind, from) => net::holds(&self.run.net, kind, from, self.s),
            Step::Notice(o) => sets::member(sets::minus(self.run.stopped, self.site().known), o),
            Step::Begin(_) | Step::TakeOver | Step::Conclude => true,
        }
    }

    // The first of the grounds 2 to 4 on which a step is refused, if it is.
    #[tactic(auto, unfolding(crate::specs::Reply::step_ground_in))]
    fn ground(&self, step: Step) -> Result<(), Refusal>
        ensures { result ≡ step_ground_in (site_at self.now.run.now self.now.s) self.now.s step self.now.run.now.stopped self.now.run.now.net }
    {
        if !self.site().names(step) {
            return Err(Refusal::WrongNames);
        }
        if sets::member(self.run.stopped, self.s) {
            return Err(Refusal::ActorStopped);
        }
        if !self.is_there(step) {
            return Err(Refusal::NotThere);
        }
        Ok(())
    }

    // The site is asked for a step: its answer, or the first ground on which the step is refused, 2 to 4 and then the site's own.
    #[tactic(auto, unfolding(crate::specs::Reply::reply_of, crate::specs::Event::is_actor))]
    fn reply(&self, step: Step) -> Result<Answer, Refusal>
        ensures { result ≡ reply_of self.now.run.now self.now.s step }
    {
        self.ground(step)?;
        reply_from(self.site().step(step))
    }

    // The site takes a step.
    #[tactic(auto, using(crate::proofs::Replies::act_is))]
    pub(crate) fn acts(&self, step: Step) -> Ran
        ensures { result ≡ goes_of self.now.run.now (Event.Act self.now.s step) }
    {
        match self.reply(step) {
            Ok(answer) => Ran {
                run: self.run.put(self.s, whole(step, answer)),
                outcome: answer.outcome,
                counts: answer.counts,
            },
            Err(why) => self.run.refused(why),
        }
    }

    // The site stops.
    #[tactic(auto, unfolding(crate::specs::Event::goes_of, crate::specs::Event::stop_ground, crate::specs::Event::is_actor, crate::specs::Run::has_stopped))]
    pub(crate) fn stops(&self) -> Ran
        ensures { result ≡ goes_of self.now.run.now (Event.Stop self.now.s) }
    {
        if sets::member(self.run.stopped, self.s) {
            return self.run.refused(Refusal::ActorStopped);
        }
        self.run.put(self.s, halt(self.site(), 0, 0)).taken(0)
    }

    // The site stops inside a step, after its messages to x have left.
    #[tactic(auto, using(crate::proofs::Replies::cut_is))]
    pub(crate) fn stops_inside(&self, step: Step, x: u8) -> Ran
        ensures { result ≡ goes_of self.now.run.now (Event.Cut self.now.s step x) }
    {
        match self.reply(step) {
            Ok(answer) => {
                let leaving = sets::both(answer.to, x);
                self.run
                    .put(self.s, halt(self.site(), answer.kind, leaving))
                    .taken(sets::count(leaving))
            }
            Err(why) => self.run.refused(why),
        }
    }
}
