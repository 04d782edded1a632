// How a schema places its bounds.
ghost use Rattle.std.specs.Prelude.{◌≡◌};
ghost use Rattle.schema.specs.Layout.{schema_of};

use crate::kinds::Schema;
use crate::tables::OctaveTable;
use crate::wide::WideBuckets;

pub(crate) enum Layout {
    // schemas 0 to 8: by a table of the bounds of one octave
    Table(OctaveTable),
    // schemas -4 to -1: at powers of two
    Powers(WideBuckets),
}

impl Schema {
    // How this schema places its bounds.
    pub(crate) fn layout(self) -> Layout
        ensures { schema_of result ≡ self.value }
    {
        let size = self.value.unsigned_abs();
        if self.value >= 0 {
            Layout::Table(OctaveTable { schema: size })
        } else {
            Layout::Powers(WideBuckets { doublings: size })
        }
    }
}
