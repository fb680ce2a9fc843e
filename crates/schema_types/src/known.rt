// Which transforms are known.
ghost use Rattle.std.specs.Prelude.{◌≡◌};
ghost use Rattle.schema_types.specs.Known.{is_known, has_known_transforms};

use crate::types::{Spec, Transform};

impl Transform {
    /// Whether it is one that this program knows.
    pub fn is_known(self) -> bool
        ensures { result ≡ is_known self }
    {
        !matches!(self, Transform::Unknown)
    }
}

impl Spec {
    /// Whether it has no unknown transform.
    pub fn has_known_transforms(&self) -> bool
        ensures { result ≡ has_known_transforms self.now }
    {
        self.fields
            .as_slice()
            .iter()
            .all(|field| field.transform.is_known())
    }
}
