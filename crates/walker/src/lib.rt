// The field walker: a reader that holds the lent record and its place in it. Each of its methods is thin and takes it apart for
// a covered function on the slice and the number.
#![tactic(auto)]

ghost use Rattle.std.specs.Prelude.{◌≡◌};
ghost use Rattle.answers.specs.Answer.{answer_of};
ghost use Rattle.fields.specs.Read.{field_at};
ghost use Rattle.jobs.specs.Read.{read_job};
ghost use Rattle.walker.specs.Walker.{bytes_left};

use answers::{Answer, Refusal};

// A record and the place in it.
#[derive(Clone, Copy)]
pub struct Walker<'a> {
    pub bytes: &'a [u8],
    pub at: usize,
}

impl<'a> Walker<'a> {
    // At the start of a record.
    pub fn new(bytes: &'a [u8]) -> Walker<'a>
        ensures { (result.bytes ≡ bytes.entry) × (result.at ≡ 0) }
    {
        Walker { bytes, at: 0 }
    }

    // Moved on to a place, as that after a field's value.
    pub fn moved(self, to: usize) -> Walker<'a>
        ensures { (result.bytes ≡ self.entry.bytes) × (result.at ≡ to) }
    {
        Walker { at: to, ..self }
    }

    // The field of a tag and a length at the walker's place.
    pub fn field(self, tag: u8, len: usize) -> Result<usize, Refusal>
        ensures { result ≡ field_at self.entry.bytes.now self.entry.at tag len }
    {
        fields::field_at(self.bytes, self.at, tag, len)
    }

    // How many bytes are left from the walker's place on.
    pub fn left(self) -> usize
        ensures { result ≡ bytes_left self.entry.bytes.now self.entry.at }
    {
        bytes_left(self.bytes, self.at)
    }
}

// How many bytes a record has from a place on.
pub fn bytes_left(s: &[u8], at: usize) -> usize
    ensures { result ≡ bytes_left s.now at }
{
    s.len().saturating_sub(at)
}

// The field at a place, by a walker made for it: whoever calls this holds no walker.
pub fn field_from(s: &[u8], at: usize, tag: u8, len: usize) -> Result<usize, Refusal>
    ensures { result ≡ field_at s.now at tag len }
{
    Walker::new(s).moved(at).field(tag, len)
}

// What is left from a place on, by a walker made for it.
pub fn left_from(s: &[u8], at: usize) -> usize
    ensures { result ≡ bytes_left s.now at }
{
    Walker::new(s).moved(at).left()
}

// What a job record's reader answers, read through the walker: the size, its range tested as soon as it is read, the counts, and
// nothing after them.
// The scope asks for let .. else where a field is read; elsewhere `?` does it.
#[tactic(auto, using(fields::proofs::Fields::found), unfolding(jobs::specs::Read::read_head, jobs::specs::Read::read_job))]
pub fn job_answer(s: &[u8]) -> Answer
    ensures { result ≡ answer_of (read_job s.now) }
{
    let start = Walker::new(s);
    let first = start.field(1, 1);
    let Ok(size) = first else {
        return Err(first.unwrap_err());
    };
    frame::test_size(fields::byte_at(s, size) as u16)?;
    let second = start.moved(size + 1).field(2, 12);
    let Ok(counts) = second else {
        return Err(second.unwrap_err());
    };
    let next = counts + 12;
    if start.moved(next).left() != 0 {
        return Err(Refusal::After(next));
    }
    Ok(())
}
