ghost use Rattle.std.specs.Prelude.{◌≡◌, [], OnOk, string_bytes};
ghost use Rattle.avro_schema.specs.Writing.{is_written, with_name};

use std::alloc::{AllocError, Global};
use std::collections::BTreeSet;
use std::marker::Model;

/// The names of the types that were written so far, in their order.
#[derive(Drop)]
pub(crate) struct WrittenNames {
    names: BTreeSet<String>,
}

impl Model for WrittenNames {
    ghost use Rattle.std.specs.Prelude.{ℕ, List, map, string_bytes};

    ghost Value = { List (List ℕ) };

    ghost view = { λ w. map string_bytes w.names.keys };
}

impl WrittenNames {
    pub(crate) fn new(alloc: Global) -> WrittenNames
        ensures { result ≡ [] }
    {
        WrittenNames {
            names: BTreeSet::new(alloc),
        }
    }

    pub(crate) fn contains(&self, name: &str) -> bool
        ensures { result ≡ is_written name.now self.now }
    {
        self.names.contains(name)
    }

    pub(crate) fn add(&mut self, name: String) -> Result<(), AllocError>
        ensures { OnOk result (self.new ≡ with_name (string_bytes name) self.old) }
    {
        self.names.insert(name)?;
        Ok(())
    }
}
