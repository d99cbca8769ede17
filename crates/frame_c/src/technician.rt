// Nets added and dropped one by one.
ghost use Rattle.std.specs.Prelude.{◌≡◌};
ghost use Rattle.wiring.specs.Calls.{adding, dropping};
ghost use Rattle.changes.specs.Start.{open_answer, open_room, start_test};
ghost use Rattle.changes.specs.Technician.{call_answer, call_map, add_net};
ghost use Rattle.frame_c.specs.Told.{Told};
ghost use Rattle.frame_c.specs.Relay.{relay_told};

use crate::telling::tell;

#[unsafe(no_mangle)]
pub extern "C" fn frame_open_all(size: u16, room: &mut [u8], number: &mut u32) -> u32
    ensures told { Told (open_answer size room.old) result number.new }
    ensures room_after { room.new ≡ open_room size room.old }
{
    tell(changes::open_frame(size, room), number)
}

#[unsafe(no_mangle)]
pub extern "C" fn frame_check_start(size: u16, map: &[u8], number: &mut u32) -> u32
    ensures { Told (start_test size map.now) result number.new }
{
    tell(changes::test_start(size, map), number)
}

#[unsafe(no_mangle)]
pub extern "C" fn frame_add_net(
    size: u16,
    map: &mut [u8],
    kind: u16,
    relay: &mut u16,
    number: &mut u32,
) -> u32
    ensures told { Told (call_answer size map.old (adding kind)) result number.new }
    ensures relay_after { relay.new ≡ relay_told (add_net size map.old kind) }
    ensures map_after { map.new ≡ call_map size map.old (adding kind) }
{
    let added = changes::add_net(size, map, kind);
    // beside a refusal 65535, which no frame has
    *relay = added.unwrap_or(65535);
    tell(added, number)
}

#[unsafe(no_mangle)]
pub extern "C" fn frame_drop_net(size: u16, map: &mut [u8], relay: u16, number: &mut u32) -> u32
    ensures told { Told (call_answer size map.old (dropping relay)) result number.new }
    ensures map_after { map.new ≡ call_map size map.old (dropping relay) }
{
    tell(changes::drop_net(size, map, relay), number)
}
