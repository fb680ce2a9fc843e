ghost use Rattle.std.specs.Prelude.{◌≡◌, IfOk, string_bytes};

use std::alloc::{AllocError, Global};
use std::marker::Model;

/// A text in UTF-8, seen by contracts as its bytes.
#[derive(Debug, Drop)]
pub struct Text {
    inner: String,
}

impl Model for Text {
    ghost use Rattle.std.specs.Prelude.{ℕ, List, string_bytes};

    ghost Value = { List ℕ };

    ghost view = { λ t. string_bytes t.inner };
}

impl Text {
    pub fn new(inner: String) -> Text
        ensures { result ≡ string_bytes inner }
    {
        Text { inner }
    }

    pub fn inner(&self) -> &String
        ensures { string_bytes result.now ≡ self.now }
    {
        &self.inner
    }

    pub fn into_inner(self) -> String
        ensures { string_bytes result ≡ self }
    {
        let Text { inner } = self;
        inner
    }

    pub fn as_str(&self) -> &str
        ensures { result.now ≡ self.now }
    {
        self.inner.as_str()
    }

    /// An equal text of its own.
    pub fn copy(&self) -> Result<Text, AllocError>
        ensures { IfOk result (λ t. t ≡ self.now) }
    {
        Ok(Text {
            inner: self.inner.clone()?,
        })
    }
}

/// Bytes, seen by contracts as a list.
#[derive(Debug, Drop)]
pub struct Bytes {
    inner: Vec<u8>,
}

impl Model for Bytes {
    ghost use Rattle.std.specs.Prelude.{ℕ, List};

    ghost Value = { List ℕ };

    ghost view = { λ b. b.inner.items };
}

impl Bytes {
    pub fn new(inner: Vec<u8>) -> Bytes
        ensures { result ≡ inner.items }
    {
        Bytes { inner }
    }

    pub fn inner(&self) -> &Vec<u8>
        ensures { result.now.items ≡ self.now }
    {
        &self.inner
    }

    pub fn into_inner(self) -> Vec<u8>
        ensures { result.items ≡ self }
    {
        let Bytes { inner } = self;
        inner
    }

    pub fn as_slice(&self) -> &[u8]
        ensures { result.now ≡ self.now }
    {
        self.inner.as_slice()
    }

    /// Equal bytes of their own.
    pub fn copy(&self) -> Result<Bytes, AllocError>
        ensures { IfOk result (λ b. b ≡ self.now) }
    {
        Ok(Bytes {
            inner: self.inner.clone()?,
        })
    }
}

/// Texts in order, seen by contracts as a list.
#[derive(Debug, Drop)]
pub struct TextList {
    inner: Vec<Text>,
}

impl Model for TextList {
    ghost use Rattle.std.specs.Prelude.{ℕ, List};

    ghost Value = { List (List ℕ) };

    ghost view = { λ ts. ts.inner.items };
}

impl TextList {
    pub fn new(inner: Vec<Text>) -> TextList
        ensures { result ≡ inner.items }
    {
        TextList { inner }
    }

    pub fn inner(&self) -> &Vec<Text>
        ensures { result.now.items ≡ self.now }
    {
        &self.inner
    }

    pub fn into_inner(self) -> Vec<Text>
        ensures { result.items ≡ self }
    {
        let TextList { inner } = self;
        inner
    }

    pub fn as_slice(&self) -> &[Text]
        ensures { result.now ≡ self.now }
    {
        self.inner.as_slice()
    }

    /// An equal list of its own.
    pub fn copy(&self, alloc: Global) -> Result<TextList, AllocError>
        ensures { IfOk result (λ ts. ts ≡ self.now) }
    {
        let texts = self.as_slice();
        let mut copied = Vec::with_capacity(alloc, texts.len())?;
        for text in texts {
            copied.push(text.copy()?)?;
        }
        Ok(TextList::new(copied))
    }
}
