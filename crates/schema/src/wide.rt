// Buckets that span whole octaves.
ghost use Rattle.std.specs.Prelude.{◌≡◌, ◌^◌, ◌≤◌, pos};

// Buckets of 2^doublings octaves each, at the schemas -1 to -4.
#[derive(Clone, Copy)]
pub(crate) struct WideBuckets {
    pub(crate) doublings: u8,
    ghost some: { 1 ≤ doublings },
    ghost few: { doublings ≤ 4 },
}

impl WideBuckets {
    // How many octaves a bucket spans.
    pub(crate) fn octaves(self) -> i32
        ensures { result ≡ pos (2 ^ self.doublings) }
    {
        1 << self.doublings
    }
}
