//! Places: absolute paths in normal form.
ghost use Rattle.std.specs.Prelude.{◌≡◌, ◌+◌, ◌<◌, ◌≤◌, ◌^◌, ◌++◌, ◌∷◌, [], ◌↔◌, IsTrue, IfOk, OnOk, MatchOption, true, false, nat_eq, length, slice_get};
ghost use Rattle.std.specs.Cmp.Lexicographic.{pointwise, slice_cmp};
ghost use Rattle.std.specs.Ordering.{nat_cmp, as_partial_cmp, on};
ghost use Rattle.std.proofs.Common.{rules};
ghost use Rattle.std.specs.Cmp.{partial_order_from_own_ties};
ghost use Rattle.std.specs.Cmp.Rules.{comparing};
ghost use Rattle.std.specs.Option.{option_copied};
ghost use Rattle.std.specs.List.{list_any};
ghost use Rattle.ice_store.specs.Places.{same_place, joined, text_of, is_under, is_filled, is_barred, is_name, names_host, scheme_len, path_in, parts_from, place_in, below, swapped, IsPlaceAnswer, AddsPiece, AddsParts};

use crate::{Items, Text};
use std::alloc::{AllocError, Global};
use std::cmp::Ordering;
use std::marker::Model;

/// A list of texts.
pub type TextList = Items<Text>;

/// Why a text names no place.
#[derive(Debug, Clone, Copy, PartialEq, Eq)]
pub enum PlaceErr {
    /// The text is no absolute path in normal form; `at` is the byte offset of the fault.
    Bad { at: usize },
    Memory,
}

impl From<AllocError> for PlaceErr {
    ghost use Rattle.ice_store.specs.declared.place.PlaceErr.TheVariants.{Memory};

    ghost from_gives = { λ _ e. e ≡ Memory };

    fn from(_: AllocError) -> Self {
        PlaceErr::Memory
    }
}

/// An absolute path in normal form: contracts see it as the list of its parts. Places are ordered by the bytes of their
/// texts.
#[derive(Debug, Drop, Clone)]
pub struct Place {
    // the parts with a slash before each; empty for the root
    joined: Vec<u8>,
    parts: Vec<Text>,
}

impl Model for Place {
    ghost use Rattle.std.specs.Prelude.{List, ℕ, ◌≡◌, ◌∷◌};
    ghost use Rattle.std.specs.List.{flat_map};

    ghost Value = { List (List ℕ) };

    ghost view = { λ p. p.parts.items };

    ghost invariant = { λ p. p.joined.items ≡ flat_map (λ part. 47 ∷ part) p.parts.items };
}

impl Place {
    /// Reads a text as a place. `/a`, `file:/a` and `file:///a` are one place; repeated slashes count as one and ending
    /// slashes are dropped. `Bad` comes exactly where the text, after an optional `file:`, doesn't begin with a slash
    /// (at 0), where `file:` is followed by exactly two slashes (at 7), or where a part is `.` or `..` or holds a NUL (at
    /// the first byte of the first such part).
    pub fn read(alloc: Global, text: &Text) -> Result<Place, PlaceErr>
        ensures { IsPlaceAnswer (place_in text.now) result }
    {
        let bytes = text.inner().as_slice();
        let scheme = scheme_of(bytes);
        let mut parts = Vec::new(alloc);
        add_path(alloc, bytes.split_at(scheme).1, scheme, &mut parts)?;
        Ok(Place::of_parts(alloc, parts)?)
    }

    // the place with these parts
    fn of_parts(alloc: Global, parts: Vec<Text>) -> Result<Place, AllocError>
        ensures { IfOk result (λ p. p ≡ parts.items) }
    {
        let mut joined = Vec::new(alloc);
        for part in &parts {
            joined.push(b'/')?;
            joined.extend_from_slice(part.inner())?;
        }
        Ok(Place { joined, parts })
    }

    /// The text of the place, from its first slash on.
    pub fn text(&self) -> Result<Text, AllocError>
        ensures { IfOk result (λ t. t ≡ text_of self.now) }
    {
        let mut text = self.joined.clone()?;
        if self.parts.is_empty() {
            text.push(b'/')?;
        }
        Ok(Text::new(text))
    }

    /// Lends the text of the place, from its first slash on. Takes no memory.
    pub fn as_bytes(&self) -> &[u8]
        ensures { result.now ≡ text_of self.now }
    {
        if self.parts.is_empty() {
            b"/"
        } else {
            &self.joined
        }
    }

    /// The place with the parts of `rest` behind its own; slashes count as in `read`. `Bad` comes exactly where a part of
    /// `rest` is `.` or `..` or holds a NUL, at the first byte of the first such part.
    pub fn join(&self, rest: &Text) -> Result<Place, PlaceErr>
        ensures { IsPlaceAnswer (below self.now (parts_from 0 rest.now)) result }
    {
        let alloc = *self.parts.allocator();
        let mut parts = self.parts.clone()?;
        add_parts(alloc, rest.inner(), 0, &mut parts)?;
        Ok(Place::of_parts(alloc, parts)?)
    }

    /// The place with one part more.
    pub fn child(&self, name: &[u8]) -> Result<Place, AllocError>
        requires { is_name name.now ≡ true }
        ensures { IfOk result (λ p. p ≡ self.now ++ name.now ∷ []) }
    {
        let alloc = *self.parts.allocator();
        let mut parts = self.parts.clone()?;
        parts.push(Text::copy_of(alloc, name)?)?;
        Place::of_parts(alloc, parts)
    }

    /// Whether the parts of `dir` stand first, equality included. Takes no memory.
    pub fn under(&self, dir: &Place) -> bool
        ensures { result ≡ is_under self.now dir.now }
    {
        self.parts.as_slice().starts_with(dir.parts.as_slice())
    }

    /// Whether it is the same place. Takes no memory.
    pub fn is(&self, other: &Place) -> bool
        ensures value { result ≡ same_place self.now other.now }
        ensures same { IsTrue result ↔ (self.now ≡ other.now) }
    {
        self.parts.as_slice() == other.parts.as_slice()
    }

    /// The part with this number, counted from 0. Takes no memory.
    pub fn part(&self, index: usize) -> Option<&Text>
        ensures { option_copied result ≡ slice_get self.now index }
    {
        self.parts.get(index)
    }

    /// The parts behind those of `dir`; none exactly where it isn't under `dir`. Takes no memory.
    pub fn below(&self, dir: &Place) -> Option<&[Text]>
        ensures { MatchOption result (is_under self.now dir.now ≡ false) (λ rest. self.now ≡ dir.now ++ rest.now) }
    {
        self.parts.strip_prefix(dir.parts.as_slice())
    }

    /// The place moved from under `from` to under `to`; none exactly where it isn't under `from`.
    pub fn swap_prefix(&self, from: &Place, to: &Place) -> Result<Option<Place>, AllocError>
        ensures { IfOk result (λ p. p ≡ swapped self.now from.now to.now) }
    {
        if !self.under(from) {
            return Ok(None);
        }
        let mut parts = to.parts.clone()?;
        add_copies(&mut parts, self.parts.split_at(from.parts.len()).1)?;
        let alloc = *to.parts.allocator();
        Ok(Some(Place::of_parts(alloc, parts)?))
    }

    /// An equal place.
    pub fn copy(&self) -> Result<Place, AllocError>
        ensures { IfOk result (λ p. p ≡ self.now) }
    {
        self.clone()
    }
}

/// Whether a part of a place may have this name: it isn't empty, `.` or `..` and holds no slash and no NUL.
pub fn is_part(name: &[u8]) -> bool
    ensures { result ≡ is_name name.now }
{
    !name.is_empty() && !is_refused(name) && !holds(name, b'/')
}

fn is_refused(part: &[u8]) -> bool
    ensures { result ≡ is_barred part.now }
{
    part == b".".as_slice() || part == b"..".as_slice() || holds(part, 0)
}

fn holds(bytes: &[u8], byte: u8) -> bool
    ensures { result ≡ list_any (λ b. nat_eq b byte) bytes.now }
{
    bytes.iter().any(|b| *b == byte)
}

fn is_host(scheme: usize, rest: &[u8]) -> bool
    ensures { result ≡ names_host scheme rest.now }
{
    scheme == 5 && rest.starts_with(b"//") && !rest.starts_with(b"///")
}

// Adds the parts of an absolute path, which stands behind a scheme of this length.
fn add_path(
    alloc: Global,
    rest: &[u8],
    scheme: usize,
    parts: &mut Vec<Text>,
) -> Result<(), PlaceErr>
    requires { scheme + length rest.now < 2 ^ 64 }
    ensures { AddsParts (path_in scheme rest.now) parts.old.items parts.new.items result }
{
    if !rest.starts_with(b"/") {
        return Err(PlaceErr::Bad { at: 0 });
    }
    if is_host(scheme, rest) {
        return Err(PlaceErr::Bad { at: 7 });
    }
    add_parts(alloc, rest, scheme, parts)
}

fn scheme_of(text: &[u8]) -> usize
    ensures value { result ≡ scheme_len text.now }
    ensures within { result ≤ length text.now }
{
    if text.starts_with(b"file:") { 5 } else { 0 }
}

fn add_copies(parts: &mut Vec<Text>, more: &[Text]) -> Result<(), AllocError>
    ensures { OnOk result (parts.new.items ≡ parts.old.items ++ more.now) }
{
    for part in more {
        push_text(parts, part.copy()?)?;
    }
    Ok(())
}

// Adds one piece of a text, which begins at an offset: nothing where it is empty.
fn add_piece(alloc: Global, piece: &[u8], at: usize, parts: &mut Vec<Text>) -> Result<(), PlaceErr>
    ensures { AddsPiece piece.now at parts.old.items parts.new.items result }
{
    if is_refused(piece) {
        return Err(PlaceErr::Bad { at });
    }
    if !piece.is_empty() {
        let text = Text::copy_of(alloc, piece)?;
        push_text(parts, text)?;
    }
    Ok(())
}

fn push_text(parts: &mut Vec<Text>, text: Text) -> Result<(), AllocError>
    ensures { OnOk result (parts.new.items ≡ parts.old.items ++ text ∷ []) }
{
    parts.push(text)?;
    Ok(())
}

// Adds the parts of a text, which begins at an offset.
fn add_parts(alloc: Global, text: &[u8], from: usize, parts: &mut Vec<Text>) -> Result<(), PlaceErr>
    requires { from + length text.now < 2 ^ 64 }
    ensures { AddsParts (parts_from from text.now) parts.old.items parts.new.items result }
{
    let mut start = 0;
    for i in 0..text.len() {
        if text[i] == b'/' {
            match add_piece(alloc, &text[start..i], from + start, parts) {
                Ok(()) => start = i + 1,
                Err(e) => return Err(e),
            }
        }
    }
    add_piece(alloc, &text[start..], from + start, parts)
}

impl PartialEq for Place {
    ghost eq = { on joined (pointwise nat_eq) };

    ghost laws = { Prim.search (comparing, rules) };

    fn eq(&self, other: &Place) -> bool {
        self.joined.as_slice() == other.joined.as_slice()
    }
}

impl Eq for Place {
    ghost laws = { Prim.search (comparing, rules) };
}

impl Ord for Place {
    ghost cmp = { on joined (slice_cmp nat_cmp) };

    ghost total = { Prim.search (comparing, rules) };

    ghost matches_partial_cmp = { Prim.search (comparing, rules) };

    ghost matches_eq = { Prim.search (comparing, rules) };

    fn cmp(&self, other: &Place) -> Ordering {
        self.joined.as_slice().cmp(other.joined.as_slice())
    }
}

impl PartialOrd for Place {
    ghost partial_cmp = { as_partial_cmp (on joined (slice_cmp nat_cmp)) };

    ghost laws = { partial_order_from_own_ties (Prim.search (comparing, rules)) (Prim.search (comparing, rules)) };

    fn partial_cmp(&self, other: &Place) -> Option<Ordering> {
        Some(self.cmp(other))
    }
}
