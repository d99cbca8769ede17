// The bench lister's text for a job record, made in a lent room.
#![tactic(auto)]

ghost use Rattle.std.specs.Prelude.{◌≡◌, ◌∷◌, ◌*◌, ◌≤◌, ◌<◌, length, decimal};
ghost use Rattle.wiring.specs.Frame.{frame};
ghost use Rattle.answers.specs.Table.{refusal_code};
ghost use Rattle.text.specs.Wrote.{Fits, Wrote};
ghost use Rattle.listing.specs.Lines.{space, terminal_text, net_line, net_lines, size_line, map_text};
ghost use Rattle.listing.specs.Lines.{spaced, sums_after, refused_text};
ghost use Rattle.listing.specs.Listing.{job_text, text_of, listed, listed_room};

use answers::{Answer, Refusal};
use frame::{Job, Terminal};
use overfull::Sums;
use text::Text;

// Each of these asks that its own text fits: the room is tested once, in `list`.

// A space, then side and position, as L1.
#[tactic(auto, using(text::proofs::Stores::wrote_append), unfolding(crate::specs::Lines::terminal_text))]
fn put_terminal(text: &mut Text, t: Terminal)
    requires side_there { (1 ≤ t.side) × (t.side ≤ 4) }
    requires text_fits { Fits text.old (space ∷ terminal_text t.side t.position) }
    ensures { Wrote text.old (space ∷ terminal_text t.side t.position) text.new }
{
    text.put_byte(b' ');
    text.put_byte(b"LTRB"[t.side - 1]);
    text.put_decimal(t.position as u64);
}

// A closed relay's line: type, terminal on the earlier side, terminal on the later side. The relay is a number from `put_nets`' range.
#[tactic(auto, unfolding(crate::specs::Lines::net_line, frame::specs::Leaves::sorted, frame::specs::Leaves::terminals_of))]
fn put_net(text: &mut Text, size: usize, relay: usize)
    requires relay_there { relay < 6 * size }
    requires line_fits { Fits text.old (net_line size relay) }
    ensures { Wrote text.old (net_line size relay) text.new }
{
    let (kind, _) = frame::sort_relay(size, relay).unwrap();
    let (earlier, later) = frame::relay_terminals(size, relay).unwrap();
    text.put_decimal(kind as u64);
    put_terminal(text, earlier);
    put_terminal(text, later);
    text.put_byte(b'\n');
}

// A line for each closed relay, by rising number.
fn put_nets(text: &mut Text, size: u16, map: &[u8])
    requires { Fits text.old (net_lines size map.now (frame size).relays) }
    ensures { Wrote text.old (net_lines size map.now (frame size).relays) text.new }
{
    let size = size as usize;
    for relay in 0..6 * size {
        if maps::is_closed(map, relay) {
            put_net(text, size, relay);
        }
    }
}

// The first line: the size and the number of closed relays.
#[tactic(auto, unfolding(crate::specs::Lines::size_line))]
fn put_size_line(text: &mut Text, size: u16, nets: usize)
    requires { Fits text.old (size_line size nets) }
    ensures { Wrote text.old (size_line size nets) text.new }
{
    text.put_bytes(b"SIZE ");
    text.put_decimal(size as u64);
    text.put_bytes(b" NETS ");
    text.put_decimal(nets as u64);
    text.put_byte(b'\n');
}

// What is printed of a map.
#[tactic(auto, unfolding(crate::specs::Lines::map_text))]
fn put_map(text: &mut Text, size: u16, map: &[u8])
    requires { Fits text.old (map_text size map.now) }
    ensures { Wrote text.old (map_text size map.now) text.new }
{
    put_size_line(text, size, maps::count_closed(map, 0, 6 * (size as usize)));
    put_nets(text, size, map);
}

// A space and a number.
fn put_number(text: &mut Text, n: u64)
    requires { Fits text.old (space ∷ decimal n) }
    ensures { Wrote text.old (space ∷ decimal n) text.new }
{
    text.put_byte(b' ');
    text.put_decimal(n);
}

// The four sums where the code is 3, else nothing.
#[tactic(auto, unfolding(crate::specs::Lines::spaced))]
fn put_sums(text: &mut Text, refusal: Refusal, sums: Sums)
    requires { Fits text.old (spaced (sums_after (refusal_code refusal) sums)) }
    ensures { Wrote text.old (spaced (sums_after (refusal_code refusal) sums)) text.new }
{
    if let Refusal::Overfull(_) = refusal {
        put_number(text, sums.left as u64);
        put_number(text, sums.top as u64);
        put_number(text, sums.right as u64);
        put_number(text, sums.bottom as u64);
    }
}

// The line of a refusal: code and number, and where the code is 3 the sums.
#[tactic(auto, unfolding(crate::specs::Lines::refused_text, crate::specs::Lines::spaced))]
fn put_refused(text: &mut Text, refusal: Refusal, sums: Sums)
    requires { Fits text.old (refused_text refusal sums) }
    ensures { Wrote text.old (refused_text refusal sums) text.new }
{
    let answer: Answer = Err(refusal);
    text.put_bytes(b"REFUSED");
    put_number(text, answers::code(answer) as u64);
    put_number(text, answers::number(answer));
    put_sums(text, refusal, sums);
    text.put_byte(b'\n');
}

// The text for a job that was read: its map's, or the line of the router's refusal.
#[tactic(auto, unfolding(crate::specs::Listing::job_text))]
fn put_job(text: &mut Text, job: Job)
    requires { Fits text.old (job_text job) }
    ensures { Wrote text.old (job_text job) text.new }
{
    let mut map = [0u8; 48];
    let routed = router::route(job, &mut map);
    match routed.answer {
        Ok(()) => put_map(text, job.size, &map[..frame::map_length(job.size)]),
        Err(refusal) => put_refused(text, refusal, routed.sums),
    }
}

// The text for a job record.
#[tactic(auto, unfolding(crate::specs::Listing::text_of))]
fn put_text(text: &mut Text, input: &[u8])
    requires { Fits text.old (text_of input.now) }
    ensures { Wrote text.old (text_of input.now) text.new }
{
    match jobs::read_job(input) {
        Ok(job) => put_job(text, job),
        Err(refusal) => put_refused(text, refusal, overfull::no_sums()),
    }
}

// A room of so many bytes is long enough for every text.
const MOST_TEXT: usize = 3857;

// Makes the text for a job record at the start of the room, and gives its length; a room that is too short is refused.
#[tactic(auto, using(crate::proofs::Length::text_length), unfolding(crate::specs::Listing::listed, crate::specs::Listing::listed_room))]
pub fn list(input: &[u8], room: &mut [u8]) -> Result<usize, Refusal>
    ensures value { result ≡ listed input.now room.old }
    ensures room_after { room.new ≡ listed_room input.now room.old }
{
    if room.len() < MOST_TEXT {
        return Err(Refusal::Room(MOST_TEXT));
    }
    let mut text = Text { room, at: 0 };
    put_text(&mut text, input);
    Ok(text.at)
}
