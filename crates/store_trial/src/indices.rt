// Ranges of indices, and picks from them that look like no order.
ghost use Rattle.std.specs.Prelude.{◌<◌};

use random::Random;

// Consecutive indices from the lowest on, at least one.
#[derive(Clone, Copy)]
pub(crate) struct Indices {
    lowest: i32,
    width: u32,
    ghost some: { 0 < width },
}

impl Indices {
    pub(crate) fn new(lowest: i32, width: u32) -> Indices
        requires { 0 < width }
    {
        Indices { lowest, width }
    }

    // One of the indices.
    pub(crate) fn pick(self, random: &mut Random) -> i32 {
        self.lowest.wrapping_add_unsigned(below(random, self.width))
    }
}

// A number below the limit. `as`, since a remainder is below what it is of.
pub(crate) fn below(random: &mut Random, limit: u32) -> u32
    requires { 0 < limit }
    ensures { result < limit }
{
    ((random.next_u64() >> 20) % u64::from(limit)) as u32
}
