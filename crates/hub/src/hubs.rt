// The plugs of a hub.
use crate::filing::Filed;
use crate::plugs::{Plug, Settings};
use schema::Schema;
use std::alloc::{AllocError, Global};
use std::collections::BTreeMap;
use store::StoreFault;

#[derive(Drop)]
pub struct Hub {
    heap: Global,
    pub(crate) plugs: BTreeMap<String, Plug>,
}

impl Hub {
    // A hub that knows no plug.
    pub fn new(heap: Global) -> Hub {
        Hub {
            heap,
            plugs: BTreeMap::new(heap),
        }
    }

    // Whether there is a plug of the name.
    pub fn knows(&self, name: &str) -> bool {
        self.plugs.contains_key(name)
    }

    // Gives the name a plug with no readings.
    pub fn declare(&mut self, name: &str, settings: Settings) -> Result<(), AllocError> {
        let key = String::from_str(self.heap, name)?;
        self.plugs.insert(key, Plug::new(settings))?;
        Ok(())
    }

    // The schema of the plug of the name, or the usual one.
    pub fn schema_of(&self, name: &str) -> Schema {
        self.plugs
            .get(name)
            .map(Plug::settings)
            .unwrap_or_default()
            .schema
    }

    // Files a reading under the plug of the name, if there is one.
    pub fn file(&mut self, name: &str, value: f64) -> Option<Result<Filed, StoreFault>> {
        self.plugs.get_mut(name).map(|plug| plug.file(value))
    }
}
