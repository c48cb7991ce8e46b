// The sheet program: reads standard input to its end or to 65,536 bytes, and writes the report on the sheet that it holds.
#![tactic(auto)]

ghost use Rattle.std.specs.Prelude.{◌≤◌, length};
ghost use Rattle.report.specs.Report.{longest, ToldWhole};

use std::io::Write;

// The whole report stands at the front of the room, which is never too small, and never says that words are missing; its length comes back.
fn reported(input: &[u8], words: &mut [u64], text: &mut [u8]) -> usize
    requires { (4096 ≤ length words.old) × (longest ≤ length text.old) }
    ensures { ToldWhole input.now words.old words.new text.old text.new result }
{
    report::report(input, words, text)
}

fn main(rt: HostRuntime) {
    let mut input = [0u8; 65536];
    let size = input::read_full(&mut rt.stdin(), &mut input);
    let mut words = [0u64; 4096];
    let mut text = [0u8; report::LONGEST];
    let length = reported(&input[..size], &mut words, &mut text);
    if rt.stdout().write_all(&text[..length]).is_err() {
        let _ = rt
            .stderr()
            .write_all(b"sheets: the report could not be written to its end\n");
    }
}
