// The bytes that are lent for writing.

ghost use Rattle.std.specs.Prelude.{◌≤◌};

use crate::spelling::{MOST_BYTES, Spelt};
use crate::words::NoQuestion;
use std::fmt::{self, Display, Write};

// How many bytes to lend to a routine.
#[derive(Clone, Copy)]
pub(crate) struct Room {
    size: usize,
    ghost within: { size ≤ 2048 },
}

impl Room {
    pub(crate) fn new(size: usize) -> Result<Self, NoQuestion> {
        if size > MOST_BYTES {
            return Err(NoQuestion);
        }
        Ok(Room { size })
    }

    // Lends the bytes to a routine, filled so that one that is left as it was shows, and tells what it answers and what it leaves in them.
    pub(crate) fn lend<D: Display + Drop, F: FnOnce(&mut [u8]) -> D, W: Write>(
        self,
        to: &mut W,
        routine: F,
    ) -> fmt::Result
        requires { F.IsAlwaysCallable routine }
    {
        let mut space = [0xEE; MOST_BYTES];
        let out = &mut space[..self.size];
        let answer = routine(out);
        write!(to, "{answer}, out {}", Spelt(out))
    }
}
