//! The small types of which a header is made. Contracts see each as a list.

ghost use Rattle.std.specs.Prelude.{◌≡◌, string_bytes};

use std::marker::Model;

/// A text in UTF-8, seen by contracts as its bytes.
#[derive(Debug, Drop)]
pub struct Text {
    inner: String,
}

impl Model for Text {
    ghost use Rattle.std.specs.Prelude.{ℕ, List, string_bytes};

    ghost Value = { List ℕ };

    ghost view = { λ t. string_bytes t.inner };
}

impl Text {
    pub fn new(inner: String) -> Text
        ensures { result ≡ string_bytes inner }
    {
        Text { inner }
    }

    pub fn inner(&self) -> &String
        ensures { string_bytes result.now ≡ self.now }
    {
        &self.inner
    }

    pub fn into_inner(self) -> String
        ensures { string_bytes result ≡ self }
    {
        let Text { inner } = self;
        inner
    }

    pub fn as_str(&self) -> &str
        ensures { result.now ≡ self.now }
    {
        self.inner.as_str()
    }
}

/// Any bytes.
#[derive(Debug, Drop)]
pub struct Bytes {
    inner: Vec<u8>,
}

impl Model for Bytes {
    ghost use Rattle.std.specs.Prelude.{ℕ, List};

    ghost Value = { List ℕ };

    ghost view = { λ b. b.inner.items };
}

impl Bytes {
    pub fn new(inner: Vec<u8>) -> Bytes
        ensures { result ≡ inner.items }
    {
        Bytes { inner }
    }

    pub fn inner(&self) -> &Vec<u8>
        ensures { result.now.items ≡ self.now }
    {
        &self.inner
    }

    pub fn into_inner(self) -> Vec<u8>
        ensures { result.items ≡ self }
    {
        let Bytes { inner } = self;
        inner
    }
}

/// Keys, each with its value.
#[derive(Debug, Drop)]
pub struct MetaList {
    inner: Vec<(Text, Bytes)>,
}

impl Model for MetaList {
    ghost use Rattle.std.specs.Prelude.{ℕ, List};

    ghost Value = { List (List ℕ × List ℕ) };

    ghost view = { λ m. m.inner.items };
}

impl MetaList {
    pub fn new(inner: Vec<(Text, Bytes)>) -> MetaList
        ensures { result ≡ inner.items }
    {
        MetaList { inner }
    }

    pub fn inner(&self) -> &Vec<(Text, Bytes)>
        ensures { result.now.items ≡ self.now }
    {
        &self.inner
    }

    pub fn into_inner(self) -> Vec<(Text, Bytes)>
        ensures { result.items ≡ self }
    {
        let MetaList { inner } = self;
        inner
    }
}
