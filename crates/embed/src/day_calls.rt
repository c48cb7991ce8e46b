// A day's journal on bytes.

ghost use Rattle.std.specs.Prelude.{◌≡◌, ◌++◌, ◌≤◌, length, drop};
ghost use Rattle.refusal.specs.Refusals.{answer_number};
ghost use Rattle.embed.specs.Bytes.{leaves_both};
ghost use Rattle.embed.specs.DayCall.{day_answer, day_bytes, day_leaves, day_call};
ghost use Rattle.packed.specs.Bytes.{run_size, run_in};
ghost use Rattle.day.specs.Day.{day_of};

use crate::number;
use day::Day;
use refusal::Refusal;
use text::Page;

// The bytes of a day's answer.
const DAY_ANSWER: usize = 26;

// The answer: three numbers of eight bytes, how many sites are awaited, and the lowest of them.
fn put_day(room: &mut [u8], day: Day)
    requires { day_answer ≤ length room.old }
    ensures { room.new ≡ day_bytes day ++ drop day_answer room.old }
{
    let mut page = Page { text: room, at: 0 };
    page.put(&day.accepted.to_be_bytes());
    page.put(&day.written.to_be_bytes());
    page.put(&day.place.to_be_bytes());
    page.put(&[day.awaited, day.lowest]);
}

// The journal of the run whose bytes these are.
#[tactic(auto, using(std::proofs::lemmas::Bool::Decides::nat_tests), unfolding(packed::specs::Bytes::length_ground, packed::specs::Bytes::replaced))]
fn take_journal(run: &mut [u8], journal: &[u8], answer: &mut [u8]) -> Result<(), Refusal>
    requires { (length run.old ≡ run_size) × (day_answer ≤ length answer.old) }
    ensures { leaves_both (answer_number result) run.new answer.new ≡ day_leaves (day_of (run_in run.old) journal.now) answer.old }
{
    let stepped = day::after_journal(packed::read_run(run), journal);
    put_day(answer, stepped.day);
    packed::write_run(run, stepped.run)?;
    match stepped.day.refusal {
        Some(refusal) => Err(refusal),
        None => Ok(()),
    }
}

// A day's journal of a run, with its answer's bytes at the front of the room.
#[tactic(auto, using(std::proofs::lemmas::Bool::Decides::nat_tests, packed::proofs::BytesLaws::run_sized), unfolding(crate::specs::DayCall::day_call))]
fn run_journal(run: &mut [u8], journal: &[u8], answer: &mut [u8]) -> Result<(), Refusal>
    ensures { leaves_both (answer_number result) run.new answer.new ≡ day_call run.old journal.now answer.old }
{
    if answer.len() < DAY_ANSWER {
        return Err(Refusal::NoRoom);
    }
    if !packed::is_run(run) {
        answer[..DAY_ANSWER].copy_from_slice(&[0; DAY_ANSWER]);
        return Err(Refusal::NotSound);
    }
    take_journal(run, journal, answer)
}

// A day's journal of a run. Returns 0 or the refusal.
#[unsafe(no_mangle)]
pub extern "C" fn fj_run_journal(run: &mut [u8], journal: &[u8], answer: &mut [u8]) -> u8
    ensures { leaves_both result run.new answer.new ≡ day_call run.old journal.now answer.old }
{
    number(run_journal(run, journal, answer))
}
