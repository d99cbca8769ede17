// How the relay of a number is wired, for a caller who has tested nothing.
#![tactic(auto)]

ghost use Rattle.std.specs.Prelude.{◌≡◌};
ghost use Rattle.wires.specs.Wired.{wired_as, wired_told};

use answers::Refusal;
use frame::Terminal;

// A relay of a frame that is served: its type, and its two terminals, that of the earlier side first.
#[derive(Clone, Copy)]
pub struct Wired {
    pub kind: usize,
    pub earlier: Terminal,
    pub later: Terminal,
}

// A relay's type and terminals.
#[tactic(auto, unfolding(crate::specs::Wired::wired_as, frame::specs::Leaves::sorted, frame::specs::Leaves::terminals_of))]
pub fn wiring_of(size: u16, relay: u16) -> Result<Wired, Refusal>
    ensures { result ≡ wired_as size relay }
{
    frame::test_size(size)?;
    let absent = Refusal::NotClosed(relay);
    let (kind, _) = frame::sort_relay(size as usize, relay as usize).ok_or(absent)?;
    let (earlier, later) = frame::relay_terminals(size as usize, relay as usize).ok_or(absent)?;
    Ok(Wired {
        kind,
        earlier,
        later,
    })
}

// What a caller is told who takes no `Result`: all are 0 beside a refusal. The zeros are those of this type alone.
pub fn wired_told(read: Result<Wired, Refusal>) -> Wired
    ensures { result ≡ wired_told read }
{
    let nowhere = Terminal {
        side: 0,
        position: 0,
    };
    read.unwrap_or(Wired {
        kind: 0,
        earlier: nowhere,
        later: nowhere,
    })
}
