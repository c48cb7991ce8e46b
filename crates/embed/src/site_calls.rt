// A single site step on bytes.

ghost use Rattle.std.specs.Prelude.{◌≡◌, ◌++◌, ◌≤◌, length, drop, Err};
ghost use Rattle.refusal.specs.Refusals.{answer_number};
ghost use Rattle.embed.specs.Bytes.{outcome_byte, leaves_both};
ghost use Rattle.embed.specs.SiteCall.{is_step, site_answer, answer_bytes, step_leaves, stepping, site_call, site_call_by};
ghost use Rattle.packed.specs.Bytes.{site_size, site_in};
ghost use Rattle.site.specs.Step.{step_of};
ghost use Rattle.fields.specs.Fields.{event_from};

use crate::{number, refuse};
use fields::{Fields, event_of};
use refusal::Refusal;
use run::Event;
use site::{Answer, Outcome, Step};

// The bytes of a step's answer.
const SITE_ANSWER: usize = 6;

// An outcome as C's byte.
pub(crate) fn outcome_byte(outcome: Outcome) -> u8
    ensures { result ≡ outcome_byte outcome }
{
    match outcome {
        Outcome::Taken => 0,
        Outcome::Passed => 1,
        Outcome::Refused(_) => 2,
    }
}

// Is this the K of a step?
#[tactic(auto, using(std::proofs::lemmas::Bool::Decides::nat_tests), unfolding(crate::specs::SiteCall::is_step))]
fn is_step(k: u8) -> bool
    ensures { result ≡ is_step k }
{
    matches!(k, 1..=5)
}

#[tactic(auto, unfolding(crate::specs::SiteCall::answer_bytes))]
fn put_answer(room: &mut [u8], answer: Answer)
    requires { site_answer ≤ length room.old }
    ensures { room.new ≡ answer_bytes answer ++ drop site_answer room.old }
{
    room[..SITE_ANSWER].copy_from_slice(&[
        outcome_byte(answer.outcome),
        answer.kind,
        answer.to,
        answer.counts.written,
        answer.counts.awaited,
        answer.counts.lowest,
    ]);
}

// A step of the site whose bytes these are.
#[tactic(auto, using(std::proofs::lemmas::Bool::Decides::nat_tests), unfolding(packed::specs::Bytes::length_ground, packed::specs::Bytes::replaced))]
fn take_step(site: &mut [u8], step: Step, answer: &mut [u8]) -> Result<(), Refusal>
    requires { (length site.old ≡ site_size) × (site_answer ≤ length answer.old) }
    ensures { leaves_both (answer_number result) site.new answer.new ≡ step_leaves (step_of (site_in site.old) step) site.old answer.old }
{
    let given = packed::read_site(site).step(step);
    put_answer(answer, given);
    given.outcome.told()?;
    packed::write_site(site, given.site)
}

// The step that the fields tell, or 14.
fn take_fields(site: &mut [u8], fields: Fields, answer: &mut [u8]) -> Result<(), Refusal>
    requires { (length site.old ≡ site_size) × (site_answer ≤ length answer.old) }
    ensures { leaves_both (answer_number result) site.new answer.new ≡ stepping (event_from fields) site.old answer.old }
{
    match event_of(fields) {
        Ok(Event::Act(_, step)) => take_step(site, step, answer),
        Ok(Event::Stop(_) | Event::Cut(_, _, _)) => refuse(
            &mut answer[..SITE_ANSWER],
            Refusal::UnknownK,
        ),
        Err(refusal) => refuse(&mut answer[..SITE_ANSWER], refusal),
    }
}

// One step of a site, with its answer's bytes at the front of the room.
#[tactic(auto, using(std::proofs::lemmas::Bool::Decides::nat_tests, packed::proofs::BytesLaws::site_sized), unfolding(crate::specs::SiteCall::site_call_by))]
fn site_step(site: &mut [u8], fields: Fields, answer: &mut [u8]) -> Result<(), Refusal>
    ensures { leaves_both (answer_number result) site.new answer.new ≡ site_call_by site.old fields answer.old }
{
    if answer.len() < SITE_ANSWER {
        return Err(Refusal::NoRoom);
    }
    if !packed::is_site(site) {
        return refuse(&mut answer[..SITE_ANSWER], Refusal::NotSound);
    }
    if !is_step(fields.k) {
        return refuse(&mut answer[..SITE_ANSWER], Refusal::UnknownK);
    }
    take_fields(site, fields, answer)
}

// One step of a site. Returns 0 or the refusal.
#[unsafe(no_mangle)]
#[tactic(auto, unfolding(crate::specs::SiteCall::site_call))]
pub extern "C" fn fj_site_step(site: &mut [u8], k: u8, o: u8, m: u8, v: u8, answer: &mut [u8]) -> u8
    ensures { leaves_both result site.new answer.new ≡ site_call site.old k o m v answer.old }
{
    let fields = Fields {
        k,
        o,
        m,
        v,
        ..Fields::default()
    };
    number(site_step(site, fields, answer))
}
