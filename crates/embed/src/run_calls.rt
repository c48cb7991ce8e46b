// Runs on bytes: a fresh run, and one event. The calls on a site have the same shape, and other bytes, answers and grounds, C's; what both share is
// `refuse` and `number`.

ghost use Rattle.std.specs.Prelude.{◌≡◌, ◌∷◌, ◌≤◌, length, drop, Err};
ghost use Rattle.refusal.specs.Refusals.{answer_number};
ghost use Rattle.embed.specs.Bytes.{outcome_byte, leaves, leaves_both};
ghost use Rattle.embed.specs.RunCalls.{fresh_call, run_answer, ran_leaves, happening, run_call, run_call_by};
ghost use Rattle.packed.specs.Bytes.{run_in};
ghost use Rattle.run.specs.Event.{next_of};
ghost use Rattle.fields.specs.Fields.{event_from};

use crate::site_calls::outcome_byte;
use crate::{number, refuse};
use fields::{Fields, event_of};
use refusal::Refusal;
use run::Event;
use site::{Counts, Outcome};

// The bytes of an event's answer.
const RUN_ANSWER: usize = 4;

// The bytes of the fresh run of n sites take the place of these.
#[tactic(auto, using(std::proofs::lemmas::Bool::Decides::nat_tests), unfolding(crate::specs::RunCalls::fresh_call, packed::specs::Bytes::length_ground, packed::specs::Bytes::replaced))]
fn put_fresh(n: u8, run: &mut [u8]) -> Result<(), Refusal>
    ensures { leaves (answer_number result) run.new ≡ fresh_call n run.old }
{
    let made = run::fresh(n);
    packed::write_run(run, made.run)?;
    made.outcome.told()
}

// The fresh run of n sites. Returns 0 or the refusal.
#[unsafe(no_mangle)]
pub extern "C" fn fj_run_fresh(n: u8, run: &mut [u8]) -> u8
    ensures { leaves result run.new ≡ fresh_call n run.old }
{
    number(put_fresh(n, run))
}

fn put_ran(room: &mut [u8], outcome: Outcome, counts: Counts)
    requires { run_answer ≤ length room.old }
    ensures { room.new ≡ outcome_byte outcome ∷ counts.written ∷ counts.awaited ∷ counts.lowest ∷ drop run_answer room.old }
{
    room[..RUN_ANSWER].copy_from_slice(&[
        outcome_byte(outcome),
        counts.written,
        counts.awaited,
        counts.lowest,
    ]);
}

// An event of the run whose bytes these are.
#[tactic(auto, using(std::proofs::lemmas::Bool::Decides::nat_tests), unfolding(crate::specs::RunCalls::ran_bytes, packed::specs::Bytes::length_ground, packed::specs::Bytes::replaced))]
fn take_event(run: &mut [u8; packed::RUN], event: Event, answer: &mut [u8]) -> Result<(), Refusal>
    requires { run_answer ≤ length answer.old }
    ensures { leaves_both (answer_number result) run.new answer.new ≡ ran_leaves (next_of (run_in run.old) event) run.old answer.old }
{
    let ran = packed::read_run(run).happens(event);
    put_ran(answer, ran.outcome, ran.counts);
    ran.outcome.told()?;
    packed::write_run(run, ran.run)
}

// The event that the fields tell, or 13 or 14.
fn take_fields(
    run: &mut [u8; packed::RUN],
    fields: Fields,
    answer: &mut [u8],
) -> Result<(), Refusal>
    requires { run_answer ≤ length answer.old }
    ensures { leaves_both (answer_number result) run.new answer.new ≡ happening (event_from fields) run.old answer.old }
{
    match event_of(fields) {
        Ok(event) => take_event(run, event, answer),
        Err(refusal) => refuse(&mut answer[..RUN_ANSWER], refusal),
    }
}

// One event of a run, with its answer's bytes at the front of the room.
#[tactic(auto, using(std::proofs::lemmas::Bool::Decides::nat_tests, packed::proofs::BytesLaws::run_sized), unfolding(crate::specs::RunCalls::run_call_by))]
fn run_event(run: &mut [u8], f: Fields, answer: &mut [u8]) -> Result<(), Refusal>
    ensures { leaves_both (answer_number result) run.new answer.new ≡ run_call_by run.old f answer.old }
{
    if answer.len() < RUN_ANSWER {
        return Err(Refusal::NoRoom);
    }
    match run.as_mut_array() {
        Some(run) if packed::is_run(run) => take_fields(run, f, answer),
        _ => refuse(&mut answer[..RUN_ANSWER], Refusal::NotSound),
    }
}

// One event of a run. Returns 0 or the refusal.
#[unsafe(no_mangle)]
#[tactic(auto, unfolding(crate::specs::RunCalls::run_call))]
pub extern "C" fn fj_run_event(
    run: &mut [u8],
    k: u8,
    s: u8,
    o: u8,
    m: u8,
    v: u8,
    x: u8,
    answer: &mut [u8],
) -> u8
    ensures { leaves_both result run.new answer.new ≡ run_call run.old k s o m v x answer.old }
{
    number(run_event(run, Fields { k, s, o, m, v, x }, answer))
}
