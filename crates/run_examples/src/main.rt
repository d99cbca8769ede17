// Runs every bench example of the scope, starred or not, the seven vectors of document 000's Table I at size 2, and a technician's calls
// with item 4's own example among them. Each is compared with what it should be and has a line of its own; the last line says how many
// hold.
#![tactic(auto)]

ghost use Rattle.std.specs.Prelude.{◌≡◌, slice_index_or};
ghost use Rattle.run_examples.specs.Compare.{given, stands};

mod shown;

use answers::Refusal;
use frame::Job;
use overfull::Sums;
use router::Routed;
use shown::{Asked, Bytes, Told};
use std::io;

// What a room holds before it is lent. No map below has this byte, so it shows what was written and what was left alone.
const FILL: u8 = 0xA5;

// A job of this size with these counts, n1 to n6.
fn job(size: u16, counts: [u16; 6]) -> Job {
    let [n1, n2, n3, n4, n5, n6] = counts;
    let counts = frame::six(n1, n2, n3, n4, n5, n6);
    Job { size, counts }
}

// Has the answer this code and this number? The scope's table has numbers, so an example that named the refusal would not try the table.
fn is<T: Copy>(answer: Result<T, Refusal>, code: u32, number: u64) -> bool
    ensures { result ≡ given answer code number }
{
    answers::code(answer) == code && answers::number(answer) == number
}

// Did the router tell this?
fn gave(routed: Routed, told: Told) -> bool {
    is(routed.answer, told.code, told.number) && routed.sums == told.sums
}

// The byte that must stand in the room at a place: the map's, and past the map what the room was filled with. The records' `byte_at` has 0
// there, and this program stands on no record's crate.
fn should_be(map: &[u8], at: usize) -> u8
    ensures { result ≡ slice_index_or map.now at 0xA5 }
{
    if map.len() <= at {
        return FILL;
    }
    map[at]
}

// Does the map stand at the start of the room, with the rest of the room as it was before it was lent?
fn stands_in(room: &[u8], map: &[u8]) -> bool
    ensures { result ≡ stands room.now map.now }
{
    if room.len() < map.len() {
        return false;
    }
    for (i, byte) in room.iter().enumerate() {
        if *byte != should_be(map, i) {
            return false;
        }
    }
    true
}

// The examples as they are run: where their lines go, how many there were, and how many of them hold.
#[derive(Drop)]
struct Examples<'a, P> {
    out: &'a P,
    run: u64,
    hold: u64,
}

impl<'a, P: Print> Examples<'a, P> {
    // Counts an example and begins its line. There are so few that the sums do not wrap.
    fn begin(&mut self, right: bool) -> io::Result<()> {
        self.run = self.run.wrapping_add(1);
        if right {
            self.hold = self.hold.wrapping_add(1);
        }
        print!(self.out; "{}", if right { "ok     " } else { "WRONG  " })
    }

    // The router must be done, and this be the map.
    fn routed(&mut self, job: Job, map: &[u8]) -> io::Result<()> {
        let mut room = [FILL; 48];
        let routed = router::route(job, &mut room);
        self.begin(gave(routed, shown::done()) && stands_in(&room, map))?;
        println!(self.out; "route, {} gives{}", Asked(job), Bytes(map))
    }

    // The router must refuse, with this code, number and sums, and leave all of the room as it was.
    fn refused_in(&mut self, call: &str, job: Job, room: &mut [u8], told: Told) -> io::Result<()> {
        let routed = router::route(job, room);
        self.begin(gave(routed, told) && stands_in(room, b""))?;
        println!(self.out; "{call}, {} gives {told}", Asked(job))
    }

    // The same with room enough.
    fn refused(&mut self, job: Job, told: Told) -> io::Result<()> {
        let mut room = [FILL; 48];
        self.refused_in("route", job, &mut room, told)
    }

    // The map check must refuse this map, with this code and number.
    fn faulty(&mut self, job: Job, map: &[u8], code: u32, number: u64) -> io::Result<()> {
        let answer = map_check::check_map(job, map);
        self.begin(is(answer, code, number))?;
        let told = shown::refusal(code, number);
        println!(self.out; "check, {} with{} gives {told}", Asked(job), Bytes(map))
    }

    // The router must be done at size 2, and the map check be done with its map.
    fn carried(&mut self, job: Job) -> io::Result<()> {
        let mut room = [FILL; 2];
        let routed = router::route(job, &mut room);
        let right = gave(routed, shown::done()) && is(map_check::check_map(job, &room), 0, 0);
        self.begin(right)?;
        println!(self.out; "Table I, {} is routed and passes the check", Asked(job))
    }

    // An open frame of size 2 must leave this map.
    fn opened(&mut self, map: &mut [u8], left: &[u8]) -> io::Result<()> {
        let right = is(changes::open_frame(2, map), 0, 0) && stands_in(map, left);
        self.begin(right)?;
        println!(self.out; "open frame, size 2 leaves{}", Bytes(left))
    }

    // A net of a type must close this relay or be refused with this code and the type, and leave this map.
    fn adds(
        &mut self,
        map: &mut [u8],
        kind: u16,
        told: Result<u16, u32>,
        left: &[u8],
    ) -> io::Result<()> {
        let added = changes::add_net(2, map, kind);
        let right = match told {
            Ok(relay) => added == Ok(relay),
            Err(code) => is(added, code, kind as u64),
        };
        self.begin(right && stands_in(map, left))?;
        match told {
            Ok(relay) => {
                println!(self.out;
                    "add {kind}, size 2: closes {relay} and leaves{}",
                    Bytes(left)
                )
            }
            Err(code) => {
                println!(self.out;
                    "add {kind}, size 2: gives code {code} and leaves{}",
                    Bytes(left)
                )
            }
        }
    }

    // Dropping a relay's net must answer with this code and number, and leave this map.
    fn drops(
        &mut self,
        map: &mut [u8],
        relay: u16,
        code: u32,
        number: u64,
        left: &[u8],
    ) -> io::Result<()> {
        let answer = changes::drop_net(2, map, relay);
        self.begin(is(answer, code, number) && stands_in(map, left))?;
        println!(self.out;
            "drop {relay}, size 2: gives code {code} and leaves{}",
            Bytes(left)
        )
    }

    // The scope's table, sizes 1 to 3.
    fn small_sizes(&mut self) -> io::Result<()> {
        self.routed(job(1, [1, 1, 0, 0, 0, 0]), b"\x03")?;
        self.refused(
            job(1, [1, 0, 1, 0, 0, 0]),
            shown::overfull_sides(1, [2, 1, 1, 0]),
        )?;
        self.routed(job(2, [0, 0, 0, 0, 0, 0]), b"\x00\x00")?;
        self.routed(job(2, [1, 0, 1, 1, 0, 0]), b"\xA1\x00")?;
        self.routed(job(2, [1, 1, 1, 0, 1, 0]), b"\x29\x01")?;
        self.routed(job(2, [0, 0, 1, 1, 1, 1]), b"\x50\x09")?;
        self.refused(
            job(2, [0, 2, 0, 1, 0, 0]),
            shown::overfull_sides(2, [0, 3, 1, 2]),
        )?;
        self.routed(job(3, [2, 1, 1, 1, 0, 0]), b"\x13\x09\x00")
    }

    // The scope's table, sizes 64, 0 and 65.
    fn other_sizes(&mut self) -> io::Result<()> {
        // 16 bytes FF, 32 bytes 00
        let mut straight = [0u8; 48];
        straight[..16].fill(0xFF);
        let most = shown::overfull_sides(15, [196605, 65535, 65535, 65535]);
        self.routed(job(64, [64, 64, 0, 0, 0, 0]), &straight)?;
        self.refused(job(64, [65535, 0, 65535, 0, 0, 65535]), most)?;
        self.refused(job(0, [0, 0, 0, 0, 0, 0]), shown::refusal(1, 0))?;
        self.refused(job(65, [0, 0, 0, 0, 0, 0]), shown::refusal(1, 65))
    }

    // The scope's router with one byte of room, and its map checks.
    fn below_the_table(&mut self) -> io::Result<()> {
        let mut byte = [FILL; 1];
        let short = shown::refusal(2, 2);
        self.refused_in(
            "route into one byte",
            job(2, [9, 9, 9, 9, 9, 9]),
            &mut byte,
            short,
        )?;
        self.faulty(job(2, [1, 0, 1, 0, 0, 0]), b"\x11\x00", 12, 4)?;
        self.faulty(job(2, [0, 1, 0, 0, 0, 0]), b"\x01\x00", 13, 1)?;
        self.faulty(job(2, [0, 0, 0, 0, 0, 0]), b"\x00\x10", 11, 0)
    }

    // The vectors of document 000's Table I, in its order.
    fn table_one(&mut self) -> io::Result<()> {
        self.carried(job(2, [1, 1, 1, 0, 1, 0]))?;
        self.carried(job(2, [1, 1, 0, 1, 0, 1]))?;
        self.carried(job(2, [1, 0, 1, 1, 0, 0]))?;
        self.carried(job(2, [1, 0, 0, 0, 1, 1]))?;
        self.carried(job(2, [0, 1, 1, 0, 0, 1]))?;
        self.carried(job(2, [0, 1, 0, 1, 1, 0]))?;
        self.carried(job(2, [0, 0, 1, 1, 1, 1]))
    }

    // The requests' item 4, from an open frame: with relays 0 and 2 closed type 3 has none; what is freed serves again.
    fn technician(&mut self) -> io::Result<()> {
        let mut map = [FILL; 2];
        self.opened(&mut map, b"\x00\x00")?;
        self.adds(&mut map, 1, Ok(0), b"\x01\x00")?;
        self.adds(&mut map, 2, Ok(2), b"\x05\x00")?;
        self.adds(&mut map, 3, Err(19), b"\x05\x00")?;
        self.drops(&mut map, 0, 0, 0, b"\x04\x00")?;
        self.adds(&mut map, 3, Ok(4), b"\x14\x00")?;
        self.adds(&mut map, 1, Ok(1), b"\x16\x00")?;
        self.adds(&mut map, 0, Err(18), b"\x16\x00")?;
        self.adds(&mut map, 7, Err(18), b"\x16\x00")?;
        self.drops(&mut map, 0, 20, 0, b"\x16\x00")?;
        self.drops(&mut map, 12, 20, 12, b"\x16\x00")?;
        self.drops(&mut map, 4, 0, 0, b"\x06\x00")?;
        self.adds(&mut map, 1, Ok(0), b"\x07\x00")
    }
}

fn main(rt: HostRuntime) -> io::Result<()> {
    let mut all = Examples {
        out: &rt,
        run: 0,
        hold: 0,
    };
    all.small_sizes()?;
    all.other_sizes()?;
    all.below_the_table()?;
    all.table_one()?;
    all.technician()?;
    println!(rt; "{} of {} examples hold", all.hold, all.run)
}
