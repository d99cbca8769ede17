// Nets added and dropped one by one, while the others stay closed (requests, item 4). The map is lent to each call, and each call makes
// the start's tests first, so that nothing has to be remembered between calls and no map is changed that was not tested. Size and map
// come apart, as the C interface hands them in.
#![tactic(auto)]

ghost use Rattle.std.specs.Prelude.{◌≡◌, ◌≤◌, MatchOption};
ghost use Rattle.wiring.specs.Frame.{frame};
ghost use Rattle.wiring.specs.Map.{closed_in};
ghost use Rattle.wiring.specs.Change.{AllTaken, LowestFree};
ghost use Rattle.wiring.specs.Calls.{adding, dropping};
ghost use Rattle.changes.specs.Start.{open_answer, open_room, start_test};
ghost use Rattle.changes.specs.Technician.{type_test, call_answer, call_map, add_net};

use answers::{Answer, Refusal};
use frame::Size;
use marks::Marks;

// A start with an open frame: all relays of the map at the room's start are opened.
#[tactic(auto, unfolding(crate::specs::Start::open_answer, crate::specs::Start::open_room))]
pub fn open_frame(size: u16, room: &mut [u8]) -> Answer
    ensures value { result ≡ open_answer size room.old }
    ensures room_after { room.new ≡ open_room size room.old }
{
    frame::test_size(size)?;
    let bytes = frame::map_length(size);
    if room.len() < bytes {
        return Err(Refusal::Room(bytes));
    }
    maps::clear(room, bytes);
    Ok(())
}

// A start with a closed map: may it be closed?
pub fn test_start(size: u16, map: &[u8]) -> Answer
    ensures { result ≡ start_test size map.now }
{
    map_check::test_closed(size, map)
}

// Code 18: is there such a type?
#[tactic(auto, using(std::proofs::lemmas::Bool::Decides::nat_tests), unfolding(crate::specs::Technician::type_test))]
fn test_type(kind: u16) -> Answer
    ensures { result ≡ type_test kind }
{
    match kind {
        1..=6 => Ok(()),
        _ => Err(Refusal::Kind(kind)),
    }
}

// The lowest relay of a type with both terminals free, if there is one. The relays of a type stand together. A net's type is a number
// from 1 to 6, as the scope counts them, and no enum: a program in C hands any number in, and code 18 is for those that are none.
fn lowest_free(size: Size, map: &[u8], kind: usize) -> Option<usize>
    requires { (1 ≤ kind) × (kind ≤ 6) }
    ensures { MatchOption result (AllTaken (frame size.w) (closed_in map.now) kind) (LowestFree (frame size.w) (closed_in map.now) kind) }
{
    let touched = Marks::of(size, map);
    for k in (kind - 1) * size.w..kind * size.w {
        if !touched.relay_marked(size, k) {
            return Some(k);
        }
    }
    None
}

// Adds a net of a type: closes the lowest relay of that type with both terminals free, and says which.
#[tactic(auto, unfolding(crate::specs::Technician::call_answer, crate::specs::Technician::call_map, crate::specs::Technician::add_net))]
pub fn add_net(size: u16, map: &mut [u8], kind: u16) -> Result<u16, Refusal>
    ensures value { result ≡ add_net size map.old kind }
    ensures map_after { map.new ≡ call_map size map.old (adding kind) }
{
    test_start(size, map)?;
    test_type(kind)?;
    let free = lowest_free(Size { w: size as usize }, map, kind as usize);
    let k = free.ok_or(Refusal::NoneFree(kind))?;
    maps::close_relay(map, k);
    Ok(k as u16)
}

// Drops the net of a relay: opens it.
#[tactic(auto, unfolding(crate::specs::Technician::call_answer, crate::specs::Technician::call_map, crate::specs::Technician::drop_test))]
pub fn drop_net(size: u16, map: &mut [u8], relay: u16) -> Answer
    ensures value { result ≡ call_answer size map.old (dropping relay) }
    ensures map_after { map.new ≡ call_map size map.old (dropping relay) }
{
    test_start(size, map)?;
    if 6 * (size as usize) <= relay as usize || !maps::is_closed(map, relay as usize) {
        return Err(Refusal::NotClosed(relay));
    }
    maps::open_relay(map, relay as usize);
    Ok(())
}
