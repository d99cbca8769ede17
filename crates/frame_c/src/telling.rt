// What the entries share: how an answer is told.
ghost use Rattle.std.specs.Prelude.{◌≡◌, ◌<◌};
ghost use Rattle.answers.specs.Table.{number_of};
ghost use Rattle.frame.specs.Leaves.{count_list};
ghost use Rattle.frame_c.specs.Told.{Told};

use answers::Refusal;
use frame::Counts;

// Tells an answer whose number fits 32 bits, whatever it gives when it is done.
pub fn tell<T: Copy>(answer: Result<T, Refusal>, number: &mut u32) -> u32
    requires { number_of answer < 4294967296 }
    ensures { Told answer result number.new }
{
    *number = answers::number(answer) as u32;
    answers::code(answer)
}

// Six counts, n1 to n6, as the array that C has.
pub fn counts_told(n: Counts) -> [u16; 6]
    ensures { result ≡ count_list n }
{
    [n.n1, n.n2, n.n3, n.n4, n.n5, n.n6]
}
