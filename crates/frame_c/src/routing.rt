// Router and map check.
ghost use Rattle.std.specs.Prelude.{◌≡◌};
ghost use Rattle.frame.specs.Leaves.{counts, count_list};
ghost use Rattle.overfull.specs.Overfull.{sum_list};
ghost use Rattle.router.specs.Router.{route_room, routed};
ghost use Rattle.map_check.specs.Check.{check_map};
ghost use Rattle.frame_c.specs.Told.{Told};

use crate::telling::tell;
use frame::Job;

#[unsafe(no_mangle)]
pub extern "C" fn frame_route(
    size: u16,
    n1: u16,
    n2: u16,
    n3: u16,
    n4: u16,
    n5: u16,
    n6: u16,
    room: &mut [u8],
    sums: &mut [u32; 4],
    number: &mut u32,
) -> u32
    ensures told { Told (routed size (counts n1 n2 n3 n4 n5 n6) room.old).answer result number.new }
    ensures sums_after { sums.new ≡ sum_list (routed size (counts n1 n2 n3 n4 n5 n6) room.old).sums }
    ensures room_after { room.new ≡ route_room size (counts n1 n2 n3 n4 n5 n6) room.old }
{
    let counts = frame::six(n1, n2, n3, n4, n5, n6);
    let told = router::route(Job { size, counts }, room);
    let answer = told.answer;
    let asked = told.sums;
    *sums = [asked.left, asked.top, asked.right, asked.bottom];
    tell(answer, number)
}

#[unsafe(no_mangle)]
pub extern "C" fn frame_check_map(
    size: u16,
    n1: u16,
    n2: u16,
    n3: u16,
    n4: u16,
    n5: u16,
    n6: u16,
    map: &[u8],
    number: &mut u32,
) -> u32
    ensures { Told (check_map size (count_list (counts n1 n2 n3 n4 n5 n6)) map.now) result number.new }
{
    let counts = frame::six(n1, n2, n3, n4, n5, n6);
    tell(map_check::check_map(Job { size, counts }, map), number)
}
