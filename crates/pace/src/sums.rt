// A sum of answers, so that every answer counts and the compiler leaves none out. It goes round at a prime.
ghost use Rattle.std.specs.Prelude.{◌<◌};

use std::fmt;

const PRIME: u64 = 1_000_003;

#[derive(Clone, Copy)]
pub(crate) struct Sum {
    value: u64,
    ghost below_the_prime: { value < 1000003 },
}

impl Sum {
    pub(crate) fn new() -> Sum {
        Sum { value: 0 }
    }

    // Of the answers to so many events, each known by its number from 0 on.
    pub(crate) fn of<F: FnMut(u64) -> u64>(count: u64, answer: F) -> Sum
        requires { (state : F) (n : _) → F.pre state n }
    {
        (0..count).map(answer).fold(Sum::new(), Sum::plus)
    }

    pub(crate) fn plus(self, value: u64) -> Sum {
        Sum {
            value: (self.value + value % PRIME) % PRIME,
        }
    }
}

impl fmt::Display for Sum {
    fn fmt<W: fmt::Write>(&self, f: &mut fmt::Formatter<W>) -> fmt::Result {
        write!(f, "{}", self.value)
    }
}
