// The C interface: sites, runs, records and sheets on numbers and byte slices, for the register's own code.
// Every call takes any bytes. What it cannot accept it refuses with document 01's number.
#![tactic(auto)]

ghost use Rattle.std.specs.Prelude.{◌≡◌, ◌∷◌, ◌-◌, ◌≤◌, length, replicate, Err};
ghost use Rattle.refusal.specs.Refusals.{answer_number};

use refusal::Refusal;

mod day_calls;
mod record_calls;
mod run_calls;
mod sheet_calls;
mod site_calls;

// What C is told of an answer: 0, or 01's number of the refusal.
fn number(answer: Result<(), Refusal>) -> u8
    ensures { result ≡ answer_number answer }
{
    match answer {
        Ok(()) => 0,
        Err(refusal) => u8::from(refusal),
    }
}

// The answer of what was not tried: outcome 2, and zeros.
fn refuse(answer: &mut [u8], refusal: Refusal) -> Result<(), Refusal>
    requires { 1 ≤ length answer.old }
    ensures { (result ≡ Err refusal) × (answer.new ≡ 2 ∷ replicate (length answer.old - 1) 0) }
{
    answer.fill(0);
    answer[0] = 2;
    Err(refusal)
}
