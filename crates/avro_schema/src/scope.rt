use crate::known::Known;
use crate::names::Names;
use crate::text::Text;
use std::alloc::AllocError;

/// What holds at a place of a schema that is read: the types defined before it, and for how many
/// record fields there is room from it on.
#[derive(Drop)]
pub(crate) struct Scope {
    pub(crate) names: Names,
    pub(crate) room: u32,
}

impl Scope {
    ghost use Rattle.std.specs.Prelude.{◌≡◌, OnOk};
    ghost use Rattle.avro_schema.specs.Reading.{defining};

    pub(crate) fn define(&mut self, name: &Text, known: Known) -> Result<(), AllocError>
        ensures { OnOk result (self.new ≡ defining name.now known self.old) }
    {
        self.names.define(name.copy()?.into_inner(), known)
    }
}
