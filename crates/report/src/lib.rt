// The report on a protocol sheet, as text in lent bytes (01, "The sheet program reads a sheet").
#![tactic(auto)]

ghost use Rattle.std.specs.Prelude.{◌≡◌};
ghost use Rattle.report.specs.Report.{Reported};

mod line;

// The longest text, so room for the report on any sheet: see specs/Report.antt.
pub const LONGEST: usize = 3731;

// Judges the sheet in `bytes` and writes the report on it at the start of `out`; answers its length. Where `out` has less room than the longest
// text, nothing is touched and the answer is 0, and no Err: it is public, could not fail, and C gets it.
pub fn report(bytes: &[u8], words: &mut [u64], out: &mut [u8]) -> usize
    ensures { Reported bytes.now words.old words.new out.old out.new result }
{
    if out.len() < LONGEST {
        return 0;
    }
    match judge::judge(bytes, words) {
        Ok(verdict) => {
            let sheet = sheet::parts(bytes);
            line::put_accepted(out, &sheet, &verdict)
        }
        Err(why) => line::put_refused(out, u8::from(why)),
    }
}
