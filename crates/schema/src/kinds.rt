// A schema: the resolution of the buckets, 2^schema of them in each octave.
ghost use Rattle.std.specs.Prelude.{T};
ghost use Rattle.schema.specs.Bounds.{is_schema};

#[derive(Clone, Copy, PartialEq, Eq, Debug)]
pub struct Schema {
    pub(crate) value: i8,
    ghost known: { T (is_schema value) },
}
