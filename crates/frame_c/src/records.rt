// The readers and writers of job and pattern records: an entry for each, since C has no generic ones.
ghost use Rattle.std.specs.Prelude.{◌≡◌};
ghost use Rattle.frame.specs.Leaves.{count_list};
ghost use Rattle.jobs.specs.Read.{job_told, read_job};
ghost use Rattle.jobs.specs.Write.{job_answer, job_room};
ghost use Rattle.patterns.specs.Read.{pattern_told, read_pattern};
ghost use Rattle.patterns.specs.Write.{pattern_answer, pattern_room};
ghost use Rattle.frame_c.specs.Told.{Told};
ghost use Rattle.frame_c.specs.Job.{job_of};

use crate::telling::{counts_told, tell};
use frame::Job;

#[unsafe(no_mangle)]
pub extern "C" fn frame_read_job(
    bytes: &[u8],
    size: &mut u16,
    counts: &mut [u16; 6],
    number: &mut u32,
) -> u32
    ensures told { Told (read_job bytes.now) result number.new }
    ensures size_after { size.new ≡ (job_told (read_job bytes.now)).size }
    ensures counts_after { counts.new ≡ count_list (job_told (read_job bytes.now)).counts }
{
    let read = jobs::read_job(bytes);
    let job = jobs::job_told(read);
    *size = job.size;
    *counts = counts_told(job.counts);
    tell(read, number)
}

#[unsafe(no_mangle)]
pub extern "C" fn frame_write_job(
    size: u16,
    n1: u16,
    n2: u16,
    n3: u16,
    n4: u16,
    n5: u16,
    n6: u16,
    room: &mut [u8],
    number: &mut u32,
) -> u32
    ensures told { Told (job_answer (job_of size n1 n2 n3 n4 n5 n6) room.old) result number.new }
    ensures room_after { room.new ≡ job_room (job_of size n1 n2 n3 n4 n5 n6) room.old }
{
    let counts = frame::six(n1, n2, n3, n4, n5, n6);
    tell(jobs::write_job(room, Job { size, counts }), number)
}

#[unsafe(no_mangle)]
pub extern "C" fn frame_read_pattern(
    bytes: &[u8],
    size: &mut u16,
    counts: &mut [u16; 6],
    start: &mut usize,
    len: &mut usize,
    number: &mut u32,
) -> u32
    ensures told { Told (read_pattern bytes.now) result number.new }
    ensures size_after { size.new ≡ (pattern_told (read_pattern bytes.now)).job.size }
    ensures counts_after { counts.new ≡ count_list (pattern_told (read_pattern bytes.now)).job.counts }
    ensures start_after { start.new ≡ (pattern_told (read_pattern bytes.now)).start }
    ensures len_after { len.new ≡ (pattern_told (read_pattern bytes.now)).len }
{
    let read = patterns::read_pattern(bytes);
    let pattern = patterns::pattern_told(read);
    let job = pattern.job;
    *size = job.size;
    *counts = counts_told(job.counts);
    *start = pattern.start;
    *len = pattern.len;
    tell(read, number)
}

#[unsafe(no_mangle)]
pub extern "C" fn frame_write_pattern(
    size: u16,
    n1: u16,
    n2: u16,
    n3: u16,
    n4: u16,
    n5: u16,
    n6: u16,
    map: &[u8],
    room: &mut [u8],
    number: &mut u32,
) -> u32
    ensures told { Told (pattern_answer (job_of size n1 n2 n3 n4 n5 n6) map.now room.old) result number.new }
    ensures room_after { room.new ≡ pattern_room (job_of size n1 n2 n3 n4 n5 n6) map.now room.old }
{
    let counts = frame::six(n1, n2, n3, n4, n5, n6);
    tell(
        patterns::write_pattern(room, Job { size, counts }, map),
        number,
    )
}
