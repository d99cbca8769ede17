// The router: six counts to a relay map in a lent room, by the written choice rule.
#![tactic(auto)]

ghost use Rattle.std.specs.Prelude.{◌≡◌, true, map, ◌+◌, ◌*◌, ◌≤◌, ◌<◌, replicate};
ghost use Rattle.wiring.specs.Wiring.{nets};
ghost use Rattle.wiring.specs.Frame.{relay};
ghost use Rattle.wiring.specs.Map.{with_closed, close_all};
ghost use Rattle.frame.specs.Leaves.{count_list};
ghost use Rattle.loads.specs.Load.{within};
ghost use Rattle.loads.specs.Seat.{seats};
ghost use Rattle.loads.specs.Seated.{net_types};
ghost use Rattle.cells.specs.Cells.{capacity, cells, without};
ghost use Rattle.cells.specs.Serve.{low_high, spread, centre, serve};
ghost use Rattle.router.specs.Route.{relays_for};
ghost use Rattle.router.specs.Router.{route_answer, route_room, routed};

use answers::{Answer, Refusal};
use frame::{Counts, Job, Size};
use loads::{LoadTable, Seated};
use overfull::Sums;

// What the router gives back beside the room: its answer, and with code 3 what the job asks of each side. Not a Result: the requests'
// item 3 asks for a struct by value with the answer and the four sums.
#[derive(Clone, Copy)]
pub struct Routed {
    pub answer: Answer,
    pub sums: Sums,
}

// A cell by its low position p, 1 the outermost.
#[derive(Clone, Copy)]
struct Cell {
    size: Size,
    p: usize,
    ghost in_the_frame: { (1 ≤ p) × (p ≤ size.w) },
}

// The type of a net is a number from 1 to 6 here too: `frame::type_sides` and the table of loads go by it. Low and high are the digits 0
// and 1 of the seating's number. How many nets a side the counts may have is another number each time that it is asked.
impl Cell {
    // Closes the relay of a net of a type that is seated low (0) or high (1) in this block.
    fn close_net(self, room: &mut [u8], kind: u8, high: u64)
        requires { (1 ≤ kind) × (kind ≤ 6) × (high < 2) }
        ensures { room.new ≡ with_closed room.old (relay self.size.w kind (low_high self.size.w self.p (high + 1))) }
    {
        let w = self.size.w;
        let first = (kind as usize - 1) * w;
        if high == 0 {
            maps::close_relay(room, first + (self.p - 1));
        } else {
            maps::close_relay(room, first + (w - self.p));
        }
    }

    // Closes the relays of this block.
    fn close_block(self, room: &mut [u8], seated: &Seated)
        ensures { room.new ≡ close_all room.old (map (spread self.size.w self.p) (seats (net_types seated.now) seated.now.seating)) }
    {
        let types = &seated.types[..seated.nets];
        for (j, kind) in types.iter().enumerate() {
            let high = (seated.seating >> (types.len() - 1 - j)) % 2;
            self.close_net(room, *kind, high);
        }
    }

    // Closes the relay of a type at position p if there is a net for it.
    #[tactic(auto, using(crate::proofs::Blocks::closed_one))]
    fn close_one(self, room: &mut [u8], n: Counts, kind: usize)
        requires { (within 1 n ≡ true) × (1 ≤ kind) × (kind ≤ 6) }
        ensures { room.new ≡ close_all room.old (replicate (nets (count_list n) kind) (relay self.size.w kind self.p)) }
    {
        if frame::count_at(n, kind - 1) == 1 {
            maps::close_relay(room, (kind - 1) * self.size.w + (self.p - 1));
        }
    }

    // Closes the relays of the centre, which is this cell. A line a type: a loop would need an invariant over the types that are served.
    #[tactic(auto, using(crate::proofs::Serving::centre_chain))]
    fn close_centre(self, room: &mut [u8], n: Counts)
        requires { within 1 n ≡ true }
        ensures { room.new ≡ close_all room.old (centre self.size.w self.p n) }
    {
        self.close_one(room, n, 1);
        self.close_one(room, n, 2);
        self.close_one(room, n, 3);
        self.close_one(room, n, 4);
        self.close_one(room, n, 5);
        self.close_one(room, n, 6);
    }
}

// Closes the relays of all cells but `skip`, from the outside in; together they hold this many nets a side. 0 leaves none out: it is the
// number of no cell, as `without` of the rule has it.
pub fn close_cells(room: &mut [u8], size: Size, skip: usize, held: usize, counts: Counts)
    requires { (held ≡ capacity size.w (without skip (cells size.w))) × (within held counts ≡ true) }
    ensures { room.new ≡ close_all room.old (serve size.w (without skip (cells size.w)) counts) }
{
    let table = LoadTable::new();
    let mut n = counts;
    let mut r = held;
    // the row that is seated, beside the seating that names it: read from there it is moved at each row of the scan
    let mut q = 0;
    let mut seated = table.seat_row(0);
    for p in 1..size.w / 2 + 1 {
        if p == skip {
            continue;
        }
        r -= 2;
        q = table.next_row(n, r as u16, q);
        table.seat_next(q, &mut seated);
        Cell { size, p }.close_block(room, &seated);
        n = loads::less(n, table.row_at(q));
    }
    if r == 1 {
        Cell {
            size,
            p: size.w / 2 + 1,
        }
        .close_centre(room, n);
    }
}

// Closes the relays of all cells: no cell has low position 0.
fn close_all(room: &mut [u8], size: Size, counts: Counts)
    requires { within size.w counts ≡ true }
    ensures { room.new ≡ close_all room.old (relays_for size.w counts) }
{
    close_cells(room, size, 0, size.w, counts);
}

// The tests one after the other; past them the map is written at the start of the room.
#[tactic(auto, unfolding(crate::specs::Router::route_answer, crate::specs::Router::route_room))]
fn write_map(job: Job, room: &mut [u8]) -> Answer
    ensures value { result ≡ route_answer job.size job.counts room.old }
    ensures room_after { room.new ≡ route_room job.size job.counts room.old }
{
    frame::test_size(job.size)?;
    let bytes = frame::map_length(job.size);
    // the room's length is tested where what it has to hold is known, here as in each writer
    if room.len() < bytes {
        return Err(Refusal::Room(bytes));
    }
    overfull::test_overfull(job)?;
    maps::clear(room, bytes);
    let size = Size {
        w: job.size as usize,
    };
    close_all(room, size, job.counts);
    Ok(())
}

// Picks the relays for a job and writes their map at the start of the room, or tells why there is none.
#[tactic(auto, unfolding(crate::specs::Router::routed))]
pub fn route(job: Job, room: &mut [u8]) -> Routed
    ensures value { result ≡ routed job.size job.counts room.old }
    ensures room_after { room.new ≡ route_room job.size job.counts room.old }
{
    let answer = write_map(job, room);
    Routed {
        answer,
        sums: overfull::sums_beside(answer, job.counts),
    }
}
