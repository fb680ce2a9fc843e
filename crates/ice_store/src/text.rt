//! Texts and bytes: a `Vec<u8>` that contracts see as the list of its bytes.
ghost use Rattle.std.specs.Prelude.{◌≡◌, ◌++◌, length, take, drop, IfOk, OnOk, OnErr, nat_eq};
ghost use Rattle.std.specs.Cmp.Lexicographic.{pointwise, slice_cmp};
ghost use Rattle.std.specs.Ordering.{nat_cmp, as_partial_cmp};
ghost use Rattle.std.proofs.Common.{rules};
ghost use Rattle.std.specs.Cmp.{partial_order_from_own_ties};
ghost use Rattle.std.specs.Cmp.Rules.{comparing};

use std::alloc::{AllocError, Global};
use std::cmp::Ordering;
use std::marker::Model;

/// A text, kept and compared as its bytes. It need not be UTF-8.
#[derive(Debug, Drop, Clone)]
pub struct Text {
    inner: Vec<u8>,
}

impl Model for Text {
    ghost use Rattle.std.specs.Prelude.{List, ℕ};

    ghost Value = { List ℕ };

    ghost view = { λ t. t.inner.items };
}

impl Text {
    /// Takes no memory.
    pub fn new(inner: Vec<u8>) -> Text
        ensures { result ≡ inner.items }
    {
        Text { inner }
    }

    /// The text of these bytes, copied.
    pub fn copy_of(alloc: Global, bytes: &[u8]) -> Result<Text, AllocError>
        ensures { IfOk result (λ t. t ≡ bytes.now) }
    {
        Ok(Text {
            inner: bytes.to_vec(alloc)?,
        })
    }

    /// Lends the bytes.
    pub fn inner(&self) -> &Vec<u8>
        ensures { result.now.items ≡ self.now }
    {
        &self.inner
    }

    /// Gives the bytes back. Takes no memory.
    pub fn into_inner(self) -> Vec<u8>
        ensures { result.items ≡ self }
    {
        let Text { inner } = self;
        inner
    }

    /// An equal text.
    pub fn copy(&self) -> Result<Text, AllocError>
        ensures { IfOk result (λ t. t ≡ self.now) }
    {
        self.clone()
    }
}

impl PartialEq for Text {
    ghost eq = { pointwise nat_eq };

    ghost laws = { Prim.search (comparing, rules) };

    fn eq(&self, other: &Text) -> bool {
        self.inner.as_slice() == other.inner.as_slice()
    }
}

impl Eq for Text {
    ghost laws = { Prim.search (comparing, rules) };
}

impl Ord for Text {
    ghost cmp = { slice_cmp nat_cmp };

    ghost total = { Prim.search (comparing, rules) };

    ghost matches_partial_cmp = { Prim.search (comparing, rules) };

    ghost matches_eq = { Prim.search (comparing, rules) };

    fn cmp(&self, other: &Text) -> Ordering {
        self.inner.as_slice().cmp(other.inner.as_slice())
    }
}

impl PartialOrd for Text {
    ghost partial_cmp = { as_partial_cmp (slice_cmp nat_cmp) };

    ghost laws = { partial_order_from_own_ties (Prim.search (comparing, rules)) (Prim.search (comparing, rules)) };

    fn partial_cmp(&self, other: &Text) -> Option<Ordering> {
        Some(self.cmp(other))
    }
}

/// The bytes of a file, or of a part of one.
#[derive(Debug, Drop, Clone)]
pub struct Bytes {
    inner: Vec<u8>,
}

impl Model for Bytes {
    ghost use Rattle.std.specs.Prelude.{List, ℕ};

    ghost Value = { List ℕ };

    ghost view = { λ b. b.inner.items };
}

impl Bytes {
    /// Takes no memory.
    pub fn new(inner: Vec<u8>) -> Bytes
        ensures { result ≡ inner.items }
    {
        Bytes { inner }
    }

    /// These bytes, copied.
    pub fn copy_of(alloc: Global, bytes: &[u8]) -> Result<Bytes, AllocError>
        ensures { IfOk result (λ b. b ≡ bytes.now) }
    {
        Ok(Bytes {
            inner: bytes.to_vec(alloc)?,
        })
    }

    /// Lends the bytes.
    pub fn inner(&self) -> &Vec<u8>
        ensures { result.now.items ≡ self.now }
    {
        &self.inner
    }

    /// Gives the bytes back. Takes no memory.
    pub fn into_inner(self) -> Vec<u8>
        ensures { result.items ≡ self }
    {
        let Bytes { inner } = self;
        inner
    }

    /// How many bytes there are.
    pub fn len(&self) -> usize
        ensures { result ≡ length self.now }
    {
        self.inner.len()
    }

    /// Equal bytes.
    pub fn copy(&self) -> Result<Bytes, AllocError>
        ensures { IfOk result (λ b. b ≡ self.now) }
    {
        self.clone()
    }

    /// Adds bytes at the end. Without memory the bytes stay as they were.
    pub fn extend(&mut self, more: &[u8]) -> Result<(), AllocError>
        ensures ok { OnOk result (self.new ≡ self.old ++ more.now) }
        ensures err { OnErr result (self.new ≡ self.old) }
    {
        self.inner.extend_from_slice(more)
    }

    /// The bytes from the offset `from` on: `len` of them, or all that there are where these are fewer.
    pub fn part(&self, alloc: Global, from: u64, len: usize) -> Result<Bytes, AllocError>
        ensures { IfOk result (λ b. b ≡ take len (drop from self.now)) }
    {
        let size = self.inner.len();
        if from >= size as u64 {
            return Ok(Bytes {
                inner: Vec::new(alloc),
            });
        }
        let start = from as usize;
        let rest = &self.inner[start..];
        let end = if len < rest.len() { len } else { rest.len() };
        Ok(Bytes {
            inner: rest[..end].to_vec(alloc)?,
        })
    }
}
