// The lines of the report, each put on a page where its text goes on. Words are bytes and not `Display`, whose text a lent page would get piece by
// piece without saying that it fits.
ghost use Rattle.std.specs.Prelude.{◌≡◌, cond, [], ◌+◌, ◌%◌, ◌≤◌, ◌<◌, ltb, length};
ghost use Rattle.text.specs.Text.{Put};
ghost use Rattle.judge.specs.Facts.{condition_number};
ghost use Rattle.report.specs.Report.{WrittenIfRoom, name_of, mark_word, yes_word, decision_word, member_of, member_in, members_of, set_word, state_line, state_lines, head_line, blocking_line, blocking_or_none, tolerance_line, refused_line, accepted_text};

use judge::{Decision, Local, Verdict, Witness};
use sheet::Sheet;
use text::Page;

// site.state
fn put_name(page: &mut Page, p: usize)
    ensures { WrittenIfRoom page.old (name_of p) page.new }
{
    page.put_decimal(p / 8 + 1);
    page.put(b".");
    page.put_decimal(p % 8);
}

// A state's mark, the sheet's byte, with the spaces around it.
#[tactic(auto, unfolding(crate::specs::Report::mark_word))]
fn mark_word(mark: u8) -> &'static [u8]
    ensures { result.now ≡ mark_word mark }
{
    match mark {
        0 => b" w ",
        1 => b" a ",
        _ => b" c ",
    }
}

#[tactic(auto, unfolding(crate::specs::Report::yes_word))]
fn yes_word(yes: bool) -> &'static [u8]
    ensures { result.now ≡ yes_word yes }
{
    if yes { b"y " } else { b"n " }
}

#[tactic(auto, unfolding(crate::specs::Report::decision_word))]
fn decision_word(decision: Decision) -> &'static [u8]
    ensures { result.now ≡ decision_word decision }
{
    match decision {
        Decision::Unreached => b"-\n",
        Decision::Abort => b"abort\n",
        Decision::Commit => b"commit\n",
        Decision::Blocked => b"blocked\n",
    }
}

// A member of a set, after a comma where others stand before it.
fn put_member(page: &mut Page, later: bool, q: usize)
    ensures { WrittenIfRoom page.old (member_of later q) page.new }
{
    if later {
        page.put(b",");
        return put_name(page, q);
    }
    put_name(page, q)
}

// Local state q, where it is in the set.
fn put_if_member(page: &mut Page, set: u64, q: usize, later: bool)
    requires { q < 32 }
    ensures { WrittenIfRoom page.old (member_in set q later) page.new }
{
    if (set >> q) % 2 == 1 {
        put_member(page, later, q)
    }
}

// The members of a set in order: a member is its number.
fn put_members(page: &mut Page, set: u64)
    ensures { WrittenIfRoom page.old (members_of set) page.new }
{
    let start = page.at;
    for q in 0..32 {
        let later = start < page.at;
        put_if_member(page, set, q, later);
    }
}

fn put_set(page: &mut Page, set: u64)
    ensures { WrittenIfRoom page.old (set_word set) page.new }
{
    if set == 0 {
        return page.put(b"-");
    }
    put_members(page, set)
}

// The line of local state p.
fn put_line(page: &mut Page, p: usize, mark: u8, local: &Local)
    ensures { WrittenIfRoom page.old (state_line p mark local.now) page.new }
{
    put_name(page, p);
    page.put(mark_word(mark));
    page.put(yes_word(local.reached));
    put_set(page, local.concurrent as u64);
    page.put(b" ");
    page.put(yes_word(local.committable));
    page.put(decision_word(local.decision));
}

// The line of local state p, where its site, of `count` states, has it.
fn put_if_standing(page: &mut Page, p: usize, count: u8, mark: u8, local: &Local)
    ensures { WrittenIfRoom page.old (cond (ltb (p % 8) count) (state_line p mark local.now) []) page.new }
{
    if p % 8 < count as usize {
        put_line(page, p, mark, local)
    }
}

// The lines of all local states that the sheet has.
fn put_lines(page: &mut Page, sheet: &Sheet, locals: &[Local; 32])
    ensures { WrittenIfRoom page.old (state_lines sheet.now locals.now) page.new }
{
    for (p, local) in locals.iter().enumerate() {
        put_if_standing(page, p, sheet.counts[p / 8], sheet.marks[p], local);
    }
}

fn put_head(page: &mut Page, sites: u8, states: usize)
    ensures { WrittenIfRoom page.old (head_line sites states) page.new }
{
    page.put(b"sheet ");
    page.put_decimal(sites as usize);
    page.put(b" sites ");
    page.put_decimal(states);
    page.put(b" states\n");
}

fn put_blocking(page: &mut Page, at: Witness)
    ensures { WrittenIfRoom page.old (blocking_line at.site at.state (condition_number at.condition)) page.new }
{
    page.put(b"verdict blocking at ");
    page.put_decimal(at.site as usize);
    page.put(b".");
    page.put_decimal(at.state as usize);
    page.put(b" condition ");
    page.put_decimal(u8::from(at.condition) as usize);
    page.put(b"\n");
}

fn put_ruling(page: &mut Page, blocking: Option<Witness>)
    ensures { WrittenIfRoom page.old (blocking_or_none blocking) page.new }
{
    match blocking {
        None => page.put(b"verdict nonblocking\n"),
        Some(at) => put_blocking(page, at),
    }
}

fn put_tolerance(page: &mut Page, tolerance: Option<u8>)
    ensures { WrittenIfRoom page.old (tolerance_line tolerance) page.new }
{
    match tolerance {
        None => page.put(b"tolerance not stated\n"),
        Some(sites) => {
            page.put(b"tolerance ");
            page.put_decimal(sites as usize);
            page.put(b"\n");
        }
    }
}

// The report on an accepted sheet.
pub(crate) fn put_accepted(out: &mut [u8], sheet: &Sheet, verdict: &Verdict) -> usize
    requires { 0 + length (accepted_text sheet.now verdict.now) ≤ length out.old }
    ensures { Put out.old 0 (accepted_text sheet.now verdict.now) out.new result }
{
    let mut page = Page { text: out, at: 0 };
    put_head(&mut page, verdict.sites, verdict.states);
    put_lines(&mut page, sheet, &verdict.locals);
    put_ruling(&mut page, verdict.blocking);
    put_tolerance(&mut page, verdict.tolerance);
    page.at
}

// `refused N`, alone: a number, since the text says no more of a ground, and every number of a byte fits.
pub(crate) fn put_refused(out: &mut [u8], ground: u8) -> usize
    requires { 0 + length (refused_line ground) ≤ length out.old }
    ensures { Put out.old 0 (refused_line ground) out.new result }
{
    let mut page = Page { text: out, at: 0 };
    page.put(b"refused ");
    page.put_decimal(ground as usize);
    page.put(b"\n");
    page.at
}
