// Protocol sheets on bytes: the judge's verdict, the report, and a sheet's parts, read and written.

ghost use Rattle.std.specs.Prelude.{◌≡◌, ◌+◌, ◌++◌, ◌≤◌, length, map, drop};
ghost use Rattle.text.specs.Page.{Written};
ghost use Rattle.report.specs.Report.{Reported};
ghost use Rattle.embed.specs.Bytes.{leaves};
ghost use Rattle.embed.specs.SheetCalls.{flags_of, decision_byte, local_bytes, witness_bytes, head_bytes, verdict_bytes, JudgeCall, parts_call, sheet_write_call};

use judge::{Decision, Local, Verdict, Witness};
use refusal::Refusal;
use text::Page;

// A verdict's bytes.
const VERDICT: usize = 206;

// Bit 0 says reached, bit 1 committable: C's byte.
fn flags(reached: bool, committable: bool) -> u8
    ensures { result ≡ flags_of reached committable }
{
    u8::from(reached) + 2 * u8::from(committable)
}

// 0 unreached, 1 abort, 2 commit, 3 blocked.
fn decision_byte(decision: Decision) -> u8
    ensures { result ≡ decision_byte decision }
{
    decision as u8
}

// A local state's bytes.
#[tactic(auto, unfolding(crate::specs::SheetCalls::local_bytes))]
fn row_of(local: Local) -> [u8; 6]
    ensures { result ≡ local_bytes local }
{
    let [first, second, third, last] = local.concurrent.to_be_bytes();
    [
        flags(local.reached, local.committable),
        decision_byte(local.decision),
        first,
        second,
        third,
        last,
    ]
}

fn rows_of(locals: [Local; 32]) -> [[u8; 6]; 32]
    ensures { result ≡ map local_bytes locals }
{
    locals.map(row_of)
}

// Whether a sheet is nonblocking, and where it blocks.
fn witness_bytes(blocking: Option<Witness>) -> [u8; 4]
    ensures { result ≡ witness_bytes blocking }
{
    match blocking {
        None => [1, 0, 0, 0],
        Some(witness) => [0, witness.site, witness.state, u8::from(witness.condition)],
    }
}

// What a verdict says of the whole sheet.
fn put_head(page: &mut Page, verdict: &Verdict)
    requires { page.old.at + 14 ≤ length page.old.text.now }
    ensures { Written page.old (head_bytes verdict.now) page.new }
{
    let [.., high, low] = verdict.states.to_be_bytes();
    page.put(&[verdict.sites, high, low]);
    page.put(&witness_bytes(verdict.blocking));
    page.put(&[verdict.tolerance.unwrap_or(0), 0, 0, 0, 0, 0, 0]);
}

fn put_verdict(out: &mut [u8], verdict: &Verdict)
    requires { 206 ≤ length out.old }
    ensures { out.new ≡ verdict_bytes verdict.now ++ drop 206 out.old }
{
    let mut page = Page { text: out, at: 0 };
    put_head(&mut page, verdict);
    let rows = rows_of(verdict.locals);
    page.put(rows.as_flattened());
}

// The judge's verdict on a sheet, and the reachable states in the lent words; a refusal leaves zeros. Returns 0 or the refusal.
#[unsafe(no_mangle)]
pub extern "C" fn fj_sheet_judge(sheet: &[u8], words: &mut [u64], out: &mut [u8]) -> u8
    ensures { JudgeCall sheet.now words.old words.new out.old out.new result }
{
    if out.len() < VERDICT {
        return u8::from(Refusal::NoRoom);
    }
    match judge::judge(sheet, words) {
        Ok(verdict) => {
            put_verdict(out, &verdict);
            0
        }
        Err(why) => {
            text::put(out, 0, &[0u8; VERDICT]);
            u8::from(why)
        }
    }
}

// The report on a sheet, with the words as the judge leaves them. Returns the text's length, 0 where the room is too small.
#[unsafe(no_mangle)]
pub extern "C" fn fj_sheet_report(sheet: &[u8], words: &mut [u64], text: &mut [u8]) -> usize
    ensures { Reported sheet.now words.old words.new text.old text.new result }
{
    report::report(sheet, words, text)
}

// The parts of a sheet as bytes, for whoever edits them. Returns 0 or the refusal.
#[unsafe(no_mangle)]
pub extern "C" fn fj_sheet_parts(bytes: &[u8], parts: &mut [u8]) -> u8
    ensures { leaves result parts.new ≡ parts_call bytes.now parts.old }
{
    if parts.len() < sheet::PARTS {
        return u8::from(Refusal::NoRoom);
    }
    match sheet::ground(bytes) {
        Ok(()) => {
            let read = sheet::parts(bytes);
            sheet::put_parts(read, parts);
            0
        }
        Err(why) => u8::from(why),
    }
}

// The record of a sheet's parts, at the front of the room. Returns 0 or the refusal.
#[unsafe(no_mangle)]
pub extern "C" fn fj_sheet_write(parts: &[u8], room: &mut [u8]) -> u8
    ensures { leaves result room.new ≡ sheet_write_call parts.now room.old }
{
    let told = sheet::from_parts(parts);
    match sheet::write(told, room) {
        Ok(_) => 0,
        Err(why) => u8::from(why),
    }
}
