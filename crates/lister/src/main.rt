// The bench lister: reads a job record from standard input and writes its listing to standard output.
#![tactic(auto)]

ghost use Rattle.std.specs.Prelude.{◌≤◌, length, IfOk};

use std::io;
use std::io::Read;

// Reads until the room is full or the input ends: a short read is gone on with.
fn read_input(input: &mut impl Read, room: &mut [u8]) -> io::Result<usize>
    ensures { IfOk result (λ n. n ≤ length room.new) }
{
    let mut n = 0;
    // Not a `for`: how far each turn goes depends on what the read gives.
    while n < room.len() {
        let more = input.read(&mut room[n..])?;
        if more == 0 {
            break;
        }
        n += more;
    }
    Ok(n)
}

// A room that is long enough for every text.
const ROOM: usize = 4096;

// One byte more than a job record has is enough to tell. Both rooms are arrays that are filled from the front, by a
// read and by the listing: the program takes no heap.
fn main(rt: HostRuntime) {
    let mut input = [0u8; 20];
    let Ok(n) = read_input(&mut rt.stdin(), &mut input) else {
        let _ = eprintln!(rt; "lister: cannot read standard input");
        return;
    };
    let mut text = [0u8; ROOM];
    let listed = listing::list(&input[..n], &mut text).unwrap();
    let written = rt.write_all(&text[..listed]);
    if written.is_err() {
        let _ = eprintln!(rt; "lister: cannot write standard output");
    }
}
