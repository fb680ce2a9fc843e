ghost use Rattle.std.specs.Prelude.{◌≡◌, [], option_map, OnOk, string_bytes};
ghost use Rattle.avro_schema.specs.Names.{find, define, last_part};

use crate::known::Known;
use std::alloc::{AllocError, Global};
use std::collections::BTreeMap;
use std::marker::Model;

/// The types that a schema has defined so far, by name.
#[derive(Drop)]
pub(crate) struct Names {
    known: BTreeMap<String, Known>,
}

impl Model for Names {
    ghost use Rattle.std.specs.Prelude.{ℕ, List};
    ghost use Rattle.std.specs.Coded.{codes};
    ghost use Rattle.avro_schema.specs.contracts.known.Known as e;
    ghost use Rattle.avro_schema.specs.declared.known.Known.{Known};

    ghost Value = { List (List ℕ × Known) };

    ghost coded = { Prim.hlevel (codes, e.the_row.coded) };

    ghost use Rattle.avro_schema.specs.Names.{names_of};

    ghost view = { λ n. names_of n.known.entries };
}

impl Names {
    pub(crate) fn new(alloc: Global) -> Names
        ensures { result ≡ [] }
    {
        Names {
            known: BTreeMap::new(alloc),
        }
    }

    pub(crate) fn find(&self, name: &str) -> Option<&Known>
        ensures { option_map (λ k. k.now) result ≡ find name.now self.now }
    {
        self.known.get(name)
    }

    pub(crate) fn define(&mut self, name: String, known: Known) -> Result<(), AllocError>
        ensures { OnOk result (self.new ≡ define (string_bytes name) known self.old) }
    {
        drop(self.known.insert(name, known)?);
        Ok(())
    }
}

/// The part of a name behind its last dot, and the whole name where it has none.
#[tactic(auto, unfolding(crate::specs::Names::last_part))]
pub(crate) fn last_part(name: &str) -> &str
    ensures { result.now ≡ last_part name.now }
{
    let mut rest = name;
    while let Some((_, after)) = rest.split_once('.') {
        rest = after;
    }
    rest
}
