// Pattern records: a job and the map that carries it, read from any bytes and written into a lent room.
#![tactic(auto)]

ghost use Rattle.std.specs.Prelude.{◌≡◌, ◌+◌, ◌≤◌, length};
ghost use Rattle.frame.specs.Leaves.{map_bytes};
ghost use Rattle.patterns.specs.Read.{map_at, read_pattern, pattern_told};
ghost use Rattle.patterns.specs.Part.{map_part};
ghost use Rattle.patterns.specs.Write.{pattern_answer, pattern_room};

use answers::{Answer, Refusal};
use frame::Job;

// A pattern that was read. Its map stands in the record at `start` and has `len` bytes: numbers, since the C interface hands them out.
#[derive(Clone, Copy)]
pub struct Pattern {
    pub job: Job,
    pub start: usize,
    pub len: usize,
}

// The map's value at its place: nothing stands after it, and then comes the map check.
#[tactic(auto, unfolding(crate::specs::Read::map_at))]
fn map_at(s: &[u8], job: Job, start: usize) -> Result<Pattern, Refusal>
    requires { start + map_bytes job.size ≤ length s.now }
    ensures { result ≡ map_at s.now job start }
{
    let len = frame::map_length(job.size);
    let end = start + len;
    if end < s.len() {
        return Err(Refusal::After(end));
    }
    map_check::check_map(job, &s[start..end])?;
    Ok(Pattern { job, start, len })
}

// Reads a pattern record: the head and the map's field.
// The scope asks for let .. else where a field is read; elsewhere `?` does it.
#[tactic(auto, using(fields::proofs::Fields::found), unfolding(crate::specs::Read::read_pattern))]
pub fn read_pattern(s: &[u8]) -> Result<Pattern, Refusal>
    ensures { result ≡ read_pattern s.now }
{
    let (job, next) = jobs::read_head(s)?;
    let third = fields::field_at(s, next, 3, frame::map_length(job.size));
    let Ok(start) = third else {
        return Err(third.unwrap_err());
    };
    map_at(s, job, start)
}

// What a caller in C is told: the pattern that was read, and all 0 beside a refusal. The zeros are those of a pattern alone.
pub fn pattern_told(read: Result<Pattern, Refusal>) -> Pattern
    ensures { result ≡ pattern_told read }
{
    let counts = frame::six(0, 0, 0, 0, 0, 0);
    read.unwrap_or(Pattern {
        job: Job { size: 0, counts },
        start: 0,
        len: 0,
    })
}

// The map that a read tells by its place, as a part of the record; no bytes where that does not lie inside it.
#[tactic(auto, unfolding(crate::specs::Part::map_part))]
pub fn map_part<'a>(s: &'a [u8], pattern: Pattern) -> &'a [u8]
    ensures { result.now ≡ map_part s.now pattern }
{
    let Pattern { start, len, .. } = pattern;
    if s.len() < start || s.len() - start < len {
        return &s[..0];
    }
    &s[start..start + len]
}

// Writes a pattern record at the start of the room.
#[tactic(auto, using(map_check::proofs::Checked::checked), unfolding(crate::specs::Write::pattern_answer, crate::specs::Write::pattern_room))]
pub fn write_pattern(room: &mut [u8], job: Job, map: &[u8]) -> Answer
    ensures value { result ≡ pattern_answer job map.now room.old }
    ensures room_after { room.new ≡ pattern_room job map.now room.old }
{
    map_check::check_map(job, map)?;
    let at = jobs::head_length(job);
    let needed = at + 3 + map.len();
    if room.len() < needed {
        return Err(Refusal::Room(needed));
    }
    jobs::put_head(room, job);
    fields::put_tag(room, at, 3, map.len());
    puts::put_bytes(room, at + 3, map);
    Ok(())
}
