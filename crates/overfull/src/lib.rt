// Which sides are asked for more nets than the size, all of them at once, and the four side sums that are told beside an answer.
#![tactic(auto)]

ghost use Rattle.std.specs.Prelude.{◌≡◌};
ghost use Rattle.counting.specs.Count.{only_if};
ghost use Rattle.wiring.specs.Frame.{four};
ghost use Rattle.wiring.specs.Check.{overfull, overfull_sides};
ghost use Rattle.frame.specs.Leaves.{count_list};
ghost use Rattle.overfull.specs.Overfull.{overfull_test, sums_of, no_sums, sums_beside};

use answers::{Answer, Refusal};
use frame::{Counts, Job, side_sum};

// The nets that counts ask of each side.
#[derive(Clone, Copy, Debug, PartialEq, Eq)]
pub struct Sums {
    pub left: u32,
    pub top: u32,
    pub right: u32,
    pub bottom: u32,
}

// The bit of a side that is overfull; 0 for one that is not.
fn bit_if_over(job: Job, side: usize, bit: u16) -> u16
    ensures { result ≡ only_if (overfull four job.size (count_list job.counts) side) bit }
{
    let most = job.size as u32;
    if most < side_sum(job.counts, side) {
        return bit;
    }
    0
}

// The overfull sides, as the sum of 1, 2, 4, 8 for L, T, R, B. A line a side: a loop's invariant would speak of powers of two.
#[tactic(auto, unfolding(wiring::specs::Check::overfull_sides, counting::specs::Count::sum_to))]
pub fn overfull_sides(job: Job) -> u16
    ensures { result ≡ overfull_sides four 4 job.size (count_list job.counts) }
{
    let left = bit_if_over(job, 1, 1);
    let top = bit_if_over(job, 2, 2);
    let right = bit_if_over(job, 3, 4);
    let bottom = bit_if_over(job, 4, 8);
    left + top + right + bottom
}

// The router's test of the side sums.
#[tactic(auto, unfolding(crate::specs::Overfull::overfull_test))]
pub fn test_overfull(job: Job) -> Answer
    ensures { result ≡ overfull_test job.size (count_list job.counts) }
{
    let sides = overfull_sides(job);
    if sides == 0 {
        return Ok(());
    }
    Err(Refusal::Overfull(sides))
}

// The four side sums.
pub fn sums_of(counts: Counts) -> Sums
    ensures { result ≡ sums_of (count_list counts) }
{
    Sums {
        left: side_sum(counts, 1),
        top: side_sum(counts, 2),
        right: side_sum(counts, 3),
        bottom: side_sum(counts, 4),
    }
}

// Four sums of 0.
pub fn no_sums() -> Sums
    ensures { result ≡ no_sums }
{
    Sums {
        left: 0,
        top: 0,
        right: 0,
        bottom: 0,
    }
}

// What stands beside an answer: with code 3 the four side sums, with any other code none.
#[tactic(auto, unfolding(crate::specs::Overfull::sums_beside))]
pub fn sums_beside(answer: Answer, counts: Counts) -> Sums
    ensures { result ≡ sums_beside answer (count_list counts) }
{
    match answer {
        Err(Refusal::Overfull(_)) => sums_of(counts),
        _ => no_sums(),
    }
}
