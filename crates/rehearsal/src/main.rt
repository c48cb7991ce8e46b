// The rehearsal program: reads standard input to its end or to 65,536 bytes, and writes the rehearsal's text.
#![tactic(auto)]

ghost use Rattle.std.specs.Prelude.{◌≤◌, length};
ghost use Rattle.transcript.specs.Transcript.{room_for, ShownWhole};

use std::io::Write;

// The whole text of a rehearsal stands at the front of the room, which is never too small; its length comes back.
fn rehearsed(input: &[u8], text: &mut [u8]) -> usize
    requires { room_for (length input.now) ≤ length text.old }
    ensures { ShownWhole input.now text.old text.new result }
{
    transcript::rehearse(input, text)
}

fn main(rt: HostRuntime) {
    let mut input = [0u8; 65536];
    let size = input::read_full(&mut rt.stdin(), &mut input);
    let mut text = [0u8; transcript::LONGEST];
    let length = rehearsed(&input[..size], &mut text);
    if rt.stdout().write_all(&text[..length]).is_err() {
        let _ = rt
            .stderr()
            .write_all(b"rehearsal: the text could not be written to its end\n");
    }
}
