// What the library is, and how its frame is wired.
ghost use Rattle.std.specs.Prelude.{◌≡◌, ◌<◌};
ghost use Rattle.wires.specs.Wired.{wired_as, wired_told};
ghost use Rattle.frame_c.specs.Told.{Told};
ghost use Rattle.frame_c.specs.About.{version, end_told};

use crate::telling::tell;
use frame::Terminal;

// A terminal as two numbers, its side and its position.
fn end_told(t: Terminal) -> [u16; 2]
    requires side_bound { t.side < 65536 }
    requires position_bound { t.position < 65536 }
    ensures { result ≡ end_told t }
{
    [t.side as u16, t.position as u16]
}

// The version of the header that these entries belong to.
#[unsafe(no_mangle)]
pub extern "C" fn frame_version() -> u32
    ensures { result ≡ version }
{
    500
}

#[unsafe(no_mangle)]
pub extern "C" fn frame_relay_terminals(
    size: u16,
    relay: u16,
    kind: &mut u16,
    earlier: &mut [u16; 2],
    later: &mut [u16; 2],
    number: &mut u32,
) -> u32
    ensures told { Told (wired_as size relay) result number.new }
    ensures kind_after { kind.new ≡ (wired_told (wired_as size relay)).kind }
    ensures earlier_after { earlier.new ≡ end_told (wired_told (wired_as size relay)).earlier }
    ensures later_after { later.new ≡ end_told (wired_told (wired_as size relay)).later }
{
    let read = wires::wiring_of(size, relay);
    let wired = wires::wired_told(read);
    *kind = wired.kind as u16;
    *earlier = end_told(wired.earlier);
    *later = end_told(wired.later);
    tell(read, number)
}
