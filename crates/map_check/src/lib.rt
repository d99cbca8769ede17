// The map check: does a map carry a job? It names the first fault, in the order 1, 2, 11, 12, 13, and writes nothing.
// Size and map come apart, as the C interface hands them in and the definitions take them.
#![tactic(auto)]

ghost use Rattle.std.specs.Prelude.{◌≡◌, ◌≤◌, MatchOption};
ghost use Rattle.wiring.specs.Wiring.{Apart, closed_of};
ghost use Rattle.wiring.specs.Frame.{frame};
ghost use Rattle.wiring.specs.Map.{closed_in};
ghost use Rattle.wiring.specs.Check.{LowestSharing};
ghost use Rattle.frame.specs.Leaves.{count_list};
ghost use Rattle.map_check.specs.Check.{form_test, map_test, counts_test, closed_test, check_map};

use answers::{Answer, Refusal};
use frame::{Job, Size};
use marks::Marks;

// Codes 2 and 11: the map's length and its spare bits.
pub fn test_form(size: u16, map: &[u8]) -> Answer
    ensures { result ≡ form_test size map.now }
{
    let needed = frame::map_length(size);
    if map.len() != needed {
        return Err(Refusal::Room(needed));
    }
    for k in 6 * (size as usize)..8 * needed {
        if maps::is_closed(map, k) {
            return Err(Refusal::Spare);
        }
    }
    Ok(())
}

// The lowest closed relay that shares a terminal with a lower closed one, if there is one. One pass by rising number: a relay shares a
// terminal exactly if one of its own is marked by then.
fn first_clash(size: Size, map: &[u8]) -> Option<usize>
    ensures { MatchOption result (Apart (frame size.w) (closed_in map.now)) (LowestSharing (frame size.w) (closed_in map.now)) }
{
    let mut touched = Marks::new();
    for k in 0..6 * size.w {
        if maps::is_closed(map, k) {
            if touched.relay_marked(size, k) {
                return Some(k);
            }
            touched.mark_relay(size, k);
        }
    }
    None
}

// Codes 2, 11 and 12: the map alone, of a size whose positions have their marks.
#[tactic(auto, unfolding(crate::specs::Check::map_test))]
pub fn test_map(size: Size, map: &[u8]) -> Answer
    ensures { result ≡ map_test size.w map.now }
{
    test_form(size.w as u16, map)?;
    match first_clash(size, map) {
        Some(relay) => Err(Refusal::Shared(relay as u16)),
        None => Ok(()),
    }
}

// Codes 1, 2, 11 and 12: may the map be closed, whatever its job?
#[tactic(auto, unfolding(crate::specs::Check::closed_test))]
pub fn test_closed(size: u16, map: &[u8]) -> Answer
    ensures { result ≡ closed_test size map.now }
{
    frame::test_size(size)?;
    test_map(Size { w: size as usize }, map)
}

// The number of closed relays of a type: its numbers stand together. A net's type is a number from 1 to 6, as the scope counts
// them, and no enum: its relays and its count are found by it.
fn closed_of(size: u16, map: &[u8], kind: usize) -> usize
    requires { (1 ≤ kind) × (kind ≤ 6) }
    ensures { result ≡ closed_of (frame size) (closed_in map.now) kind }
{
    let w = size as usize;
    maps::count_closed(map, (kind - 1) * w, kind * w)
}

// Code 13: the closed relays of each type against the counts.
pub fn test_counts(job: Job, map: &[u8]) -> Answer
    ensures { result ≡ counts_test job.size (count_list job.counts) map.now }
{
    for kind in 1..=6 {
        if closed_of(job.size, map, kind) != frame::count_at(job.counts, kind - 1) as usize {
            return Err(Refusal::Count(kind as u16));
        }
    }
    Ok(())
}

// Does the map carry the job?
#[tactic(auto, unfolding(crate::specs::Check::check_map))]
pub fn check_map(job: Job, map: &[u8]) -> Answer
    ensures { result ≡ check_map job.size (count_list job.counts) map.now }
{
    test_closed(job.size, map)?;
    test_counts(job, map)
}
