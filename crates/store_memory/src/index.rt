//! Numbers by places.
ghost use Rattle.std.specs.Prelude.{◌≡◌, [], None, Some, IfOk, OnOk, OnErr, IfNone};
ghost use Rattle.store_memory.specs.Slots.{number_at, without_number, Tells};

use ice_store::{Place, Text};
use std::alloc::{AllocError, Global};
use std::collections::BTreeMap;
use std::marker::Model;

/// A number at each of some places: contracts see the list of both.
#[derive(Debug, Drop)]
pub struct Index {
    alloc: Global,
    // by the parts of the places, since two places of one text would be one key
    numbers: BTreeMap<Vec<Text>, usize>,
    root: Place,
}

impl Model for Index {
    ghost use Rattle.std.specs.Prelude.{◌≡◌, List, ℕ, []};
    ghost use Rattle.store_memory.specs.Slots.{index_of};

    ghost Value = { List (List (List ℕ) × ℕ) };

    ghost view = { λ x. index_of x.numbers.entries };

    ghost invariant = { λ x. x.root ≡ [] };
}

impl Index {
    /// An index without a place.
    pub fn new(alloc: Global) -> Result<Index, AllocError>
        ensures { IfOk result (λ x. x ≡ []) }
    {
        Ok(Index {
            alloc,
            numbers: BTreeMap::new(alloc),
            root: root(alloc)?,
        })
    }

    /// The number at a place. Takes no memory.
    pub fn get(&self, place: &Place) -> Option<usize>
        ensures { result ≡ number_at self.now place.now }
    {
        self.numbers.get(parts_of(place, &self.root)).copied()
    }

    /// Puts a number at a place, and gives the one before it. Without memory the index stays as it was.
    pub fn insert(&mut self, place: &Place, number: usize) -> Result<Option<usize>, AllocError>
        ensures old { IfOk result (λ old. old ≡ number_at self.old place.now) }
        ensures ok { OnOk result (Tells (number_at self.old) (number_at self.new) place.now (Some number)) }
        ensures err { OnErr result (self.new ≡ self.old) }
    {
        let key = copy_of(self.alloc, parts_of(place, &self.root))?;
        Ok(self.numbers.insert(key, number)?)
    }

    /// Takes the number from a place.
    pub fn remove(&mut self, place: &Place) -> Option<usize>
        ensures value { result ≡ number_at self.old place.now }
        ensures none { IfNone result (self.new ≡ self.old) }
        ensures index { Tells (number_at self.old) (number_at self.new) place.now None }
    {
        self.numbers.remove(parts_of(place, &self.root))
    }

    /// Takes the number from one place and puts another at another, and gives the one that then was there. Without memory the
    /// index stays as it was.
    pub fn rename(
        &mut self,
        from: &Place,
        to: &Place,
        number: usize,
    ) -> Result<Option<usize>, AllocError>
        ensures old { IfOk result (λ old. old ≡ without_number (number_at self.old) from.now to.now) }
        ensures ok { OnOk result (Tells (without_number (number_at self.old) from.now) (number_at self.new) to.now (Some number)) }
        ensures err { OnErr result (self.new ≡ self.old) }
    {
        let old = self.insert(to, number)?;
        if from.is(to) {
            return Ok(None);
        }
        let _ = self.remove(from);
        Ok(old)
    }
}

fn root(alloc: Global) -> Result<Place, AllocError>
    ensures { IfOk result (λ p. p ≡ []) }
{
    let text = Text::copy_of(alloc, b"/")?;
    match Place::read(alloc, &text) {
        Ok(root) => Ok(root),
        Err(_) => Err(AllocError),
    }
}

// All parts of a place.
fn parts_of<'a>(place: &'a Place, root: &Place) -> &'a [Text]
    requires { root.now ≡ [] }
    ensures { result.now ≡ place.now }
{
    match place.below(root) {
        Some(parts) => parts,
        None => &[],
    }
}

fn copy_of(alloc: Global, parts: &[Text]) -> Result<Vec<Text>, AllocError>
    ensures { IfOk result (λ v. v.items ≡ parts.now) }
{
    let mut copies = Vec::with_capacity(alloc, parts.len())?;
    for part in parts {
        copies.push(part.copy()?)?;
    }
    Ok(copies)
}
