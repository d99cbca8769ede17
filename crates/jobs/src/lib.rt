// Job records: the size and six counts, read from any bytes and written into a lent room.
#![tactic(auto)]

ghost use Rattle.std.specs.Prelude.{◌≡◌, ◌+◌, ◌≤◌, length};
ghost use Rattle.std.proofs.lemmas.List.Edits.{sets};
ghost use Rattle.jobs.specs.Format.{size_field, counts_field, head_bytes};
ghost use Rattle.jobs.specs.Read.{counts_at, read_head, job_told, read_job};
ghost use Rattle.jobs.specs.Write.{job_answer, job_room};

use answers::{Answer, Refusal};
use frame::{Counts, Job};

// Six words from a place on. A line for each, here and in `put_counts`: a loop over an array of them is no shorter.
fn counts_at(s: &[u8], at: usize) -> Counts
    requires { at + 12 ≤ length s.now }
    ensures { result ≡ counts_at s.now at }
{
    Counts {
        n1: fields::word_at(s, at),
        n2: fields::word_at(s, at + 2),
        n3: fields::word_at(s, at + 4),
        n4: fields::word_at(s, at + 6),
        n5: fields::word_at(s, at + 8),
        n6: fields::word_at(s, at + 10),
    }
}

// The size's field and the counts' field, with which both records begin: the job, and the place after it.
// The scope asks for let .. else where a field is read; elsewhere `?` does it.
#[tactic(auto, using(fields::proofs::Fields::found), unfolding(crate::specs::Read::read_head))]
pub fn read_head(s: &[u8]) -> Result<(Job, usize), Refusal>
    ensures { result ≡ read_head s.now }
{
    let first = fields::field_at(s, 0, 1, 1);
    let Ok(a) = first else {
        return Err(first.unwrap_err());
    };
    let size = fields::byte_at(s, a) as u16;
    frame::test_size(size)?;
    let second = fields::field_at(s, a + 1, 2, 12);
    let Ok(b) = second else {
        return Err(second.unwrap_err());
    };
    let counts = counts_at(s, b);
    Ok((Job { size, counts }, b + 12))
}

// Reads a job record: the head, and nothing after it.
#[tactic(auto, unfolding(crate::specs::Read::read_job))]
pub fn read_job(s: &[u8]) -> Result<Job, Refusal>
    ensures { result ≡ read_job s.now }
{
    let (job, next) = read_head(s)?;
    if next < s.len() {
        return Err(Refusal::After(next));
    }
    Ok(job)
}

// What a caller in C is told: the job that was read, and all 0 beside a refusal. The zeros are those of a job alone.
pub fn job_told(read: Result<Job, Refusal>) -> Job
    ensures { result ≡ job_told read }
{
    let counts = frame::six(0, 0, 0, 0, 0, 0);
    read.unwrap_or(Job { size: 0, counts })
}

// The bytes that both records begin with.
pub fn head_length(job: Job) -> usize
    ensures { result ≡ length (head_bytes job) }
{
    19
}

// Room and place as the leaves of `fields` have them, here and below.
fn put_size(room: &mut [u8], at: usize, size: u8)
    requires { at + length (size_field size) ≤ length room.old }
    ensures { room.new ≡ sets room.old at (size_field size) }
{
    fields::put_tag(room, at, 1, 1);
    room[at + 3] = size;
}

fn put_counts(room: &mut [u8], at: usize, n: Counts)
    requires { at + length (counts_field n) ≤ length room.old }
    ensures { room.new ≡ sets room.old at (counts_field n) }
{
    fields::put_tag(room, at, 2, 12);
    fields::put_word(room, at + 3, n.n1);
    fields::put_word(room, at + 5, n.n2);
    fields::put_word(room, at + 7, n.n3);
    fields::put_word(room, at + 9, n.n4);
    fields::put_word(room, at + 11, n.n5);
    fields::put_word(room, at + 13, n.n6);
}

// Puts what both records begin with.
pub fn put_head(room: &mut [u8], job: Job)
    requires { (job.size ≤ 64) × (length (head_bytes job) ≤ length room.old) }
    ensures { room.new ≡ sets room.old 0 (head_bytes job) }
{
    put_size(room, 0, job.size as u8);
    put_counts(room, 4, job.counts);
}

// Writes a job record at the start of the room.
#[tactic(auto, unfolding(crate::specs::Write::job_answer, crate::specs::Write::job_room))]
pub fn write_job(room: &mut [u8], job: Job) -> Answer
    ensures value { result ≡ job_answer job room.old }
    ensures room_after { room.new ≡ job_room job room.old }
{
    frame::test_size(job.size)?;
    let needed = head_length(job);
    if room.len() < needed {
        return Err(Refusal::Room(needed));
    }
    put_head(room, job);
    Ok(())
}
