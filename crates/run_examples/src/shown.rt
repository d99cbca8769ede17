// How an example's parts are printed.
use frame::Job;
use overfull::Sums;
use std::fmt;

// What a call is asked: the size and the six counts.
#[derive(Clone, Copy)]
pub struct Asked(pub Job);

impl fmt::Display for Asked {
    fn fmt<W: fmt::Write>(&self, f: &mut fmt::Formatter<W>) -> fmt::Result {
        let Job { size, counts: n } = self.0;
        write!(
            f,
            "size {}: {} {} {} {} {} {}",
            size, n.n1, n.n2, n.n3, n.n4, n.n5, n.n6
        )
    }
}

// The bytes of a map, in hexadecimal as the scope writes them.
#[derive(Clone, Copy)]
pub struct Bytes<'a>(pub &'a [u8]);

impl<'a> fmt::Display for Bytes<'a> {
    fn fmt<W: fmt::Write>(&self, f: &mut fmt::Formatter<W>) -> fmt::Result {
        for byte in self.0 {
            write!(f, " {byte:02X}")?;
        }
        Ok(())
    }
}

// The code and the number that must come back, and the sums beside them.
#[derive(Clone, Copy)]
pub struct Told {
    pub code: u32,
    pub number: u64,
    pub sums: Sums,
}

// Done, which has no sums.
pub(crate) fn done() -> Told {
    refusal(0, 0)
}

// Any refusal but code 3 has no sums either.
pub(crate) fn refusal(code: u32, number: u64) -> Told {
    Told {
        code,
        number,
        sums: overfull::no_sums(),
    }
}

// Code 3: these sides are overfull, and these are the four sums, L, T, R, B.
pub(crate) fn overfull_sides(sides: u64, sums: [u32; 4]) -> Told {
    let [left, top, right, bottom] = sums;
    Told {
        code: 3,
        number: sides,
        sums: Sums {
            left,
            top,
            right,
            bottom,
        },
    }
}

impl fmt::Display for Told {
    fn fmt<W: fmt::Write>(&self, f: &mut fmt::Formatter<W>) -> fmt::Result {
        write!(f, "code {}, number {}", self.code, self.number)?;
        // by its number, as the scope's table has it
        if self.code != 3 {
            return Ok(());
        }
        let s = self.sums;
        write!(f, ", sums {} {} {} {}", s.left, s.top, s.right, s.bottom)
    }
}
