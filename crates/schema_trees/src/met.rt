ghost use Rattle.std.specs.Prelude.{◌≡◌, [], OnOk};
ghost use Rattle.schema_trees.specs.Ids.{is_seen, with_id};

use std::alloc::{AllocError, Global};
use std::collections::BTreeSet;
use std::marker::Model;

/// The ids that were met so far, in their order.
#[derive(Drop)]
pub(crate) struct MetIds {
    ids: BTreeSet<i32>,
}

impl Model for MetIds {
    ghost use Rattle.std.specs.Prelude.{ℤ, List};

    ghost Value = { List ℤ };

    ghost view = { λ m. m.ids.keys };
}

impl MetIds {
    pub(crate) fn new(alloc: Global) -> MetIds
        ensures { result ≡ [] }
    {
        MetIds {
            ids: BTreeSet::new(alloc),
        }
    }

    #[tactic(auto, unfolding(crate::specs::Ids::is_seen))]
    pub(crate) fn contains(&self, id: i32) -> bool
        ensures { result ≡ is_seen id self.now }
    {
        self.ids.contains(&id)
    }

    #[tactic(auto, unfolding(crate::specs::Ids::with_id))]
    pub(crate) fn add(&mut self, id: i32) -> Result<(), AllocError>
        ensures { OnOk result (self.new ≡ with_id id self.old) }
    {
        self.ids.insert(id)?;
        Ok(())
    }
}
