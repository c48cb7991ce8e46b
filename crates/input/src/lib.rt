// What both programs do first: standard input is read into a room.
#![tactic(auto)]

ghost use Rattle.std.specs.Prelude.{◌≤◌, ◌≡◌, length};
ghost use Rattle.input.specs.Input.{Taken};

use std::io::Read;

// Reads until the room is full, the input ends or a read fails; how many bytes stand at its front comes back. How much a read gives is known only
// when it has.
pub fn read_full<R: Read>(input: &mut R, room: &mut [u8]) -> usize
    ensures within { result ≤ length room.new }
    ensures size { length room.new ≡ length room.old }
    ensures bytes { Taken (R.remaining input.old) (R.remaining input.new) room.new result }
{
    let mut done = 0;
    while done < room.len() {
        match input.read(&mut room[done..]) {
            Ok(0) | Err(_) => break,
            Ok(n) => done += n,
        }
    }
    done
}
