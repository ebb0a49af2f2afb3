// Texts, which contracts see as their bytes.
ghost use Rattle.std.specs.Prelude.{◌≡◌, ◌↔◌, IfOk, IsTrue, bytes_eq, string_bytes};
ghost use Rattle.std.specs.List.{position};
ghost use Rattle.row_model.specs.Values.{IsSet};
ghost use Rattle.row_model.specs.Texts.{texts_cmp};
ghost use Rattle.row_model.specs.Names.{is_among};

use crate::set::are_set;
use std::alloc::AllocError;
use std::cmp::Ordering;
use std::marker::Model;

/// A text of UTF-8. Contracts see its bytes.
#[derive(Debug, Drop)]
pub struct Text {
    inner: String,
}

impl Model for Text {
    ghost use Rattle.std.specs.Prelude.{List, ℕ, string_bytes};

    ghost Value = { List ℕ };

    ghost view = { λ text. string_bytes text.inner };
}

impl Text {
    pub fn of(inner: String) -> Text
        ensures { result ≡ string_bytes inner }
    {
        Text { inner }
    }

    pub fn as_str(&self) -> &str
        ensures { result.now ≡ self.now }
    {
        self.inner.as_str()
    }

    pub fn into_inner(self) -> String
        ensures { string_bytes result ≡ self }
    {
        self.inner
    }

    pub fn copy(&self) -> Result<Text, AllocError>
        ensures { IfOk result (λ copy. copy ≡ self.now) }
    {
        Ok(Text {
            inner: self.inner.clone()?,
        })
    }
}

/// A list of names; their order counts. Contracts see them as the list.
#[derive(Drop)]
pub struct Names {
    inner: Vec<Text>,
}

impl Model for Names {
    ghost use Rattle.std.specs.Prelude.{List};
    ghost use Rattle.row_model.specs.declared.text.Text.{Text};

    ghost Value = { List Text };

    ghost view = { λ list. list.inner.items };
}

impl Names {
    pub fn of(inner: Vec<Text>) -> Names
        ensures { result ≡ inner.items }
    {
        Names { inner }
    }

    pub fn as_slice(&self) -> &[Text]
        ensures { result.now ≡ self.now }
    {
        self.inner.as_slice()
    }

    pub fn into_inner(self) -> Vec<Text>
        ensures { result.items ≡ self }
    {
        self.inner
    }

    pub fn copy(&self) -> Result<Names, AllocError>
        ensures { IfOk result (λ copy. copy ≡ self.now) }
    {
        let mut inner: Vec<Text> = Vec::new(*self.inner.allocator());
        for item in self.inner.as_slice() {
            inner.push(item.copy()?)?;
        }
        Ok(Names { inner })
    }

    /// The index of the first name with these bytes. None if there is none.
    pub fn place_of(&self, name: &[u8]) -> Option<usize>
        ensures { result ≡ position (bytes_eq name.now) self.now }
    {
        position_in(self.inner.as_slice(), name)
    }
}

fn position_in(names: &[Text], name: &[u8]) -> Option<usize>
    ensures { result ≡ position (bytes_eq name.now) names.now }
{
    names
        .iter()
        .position(|other| name == other.as_str().as_bytes())
}

fn compare_texts(a: &[Text], b: &[Text]) -> Ordering
    ensures { result ≡ texts_cmp a.now b.now }
{
    let mut i: usize = 0;
    while i < a.len() && i < b.len() {
        match a[i].as_str().cmp(b[i].as_str()) {
            Ordering::Less => return Ordering::Less,
            Ordering::Equal => i += 1,
            Ordering::Greater => return Ordering::Greater,
        }
    }
    a.len().cmp(&b.len())
}

/// Texts. Contracts see them as the list.
#[derive(Drop)]
pub struct Texts {
    inner: Vec<Text>,
}

impl Model for Texts {
    ghost use Rattle.std.specs.Prelude.{List};
    ghost use Rattle.row_model.specs.declared.text.Text.{Text};

    ghost Value = { List Text };

    ghost view = { λ list. list.inner.items };
}

impl Texts {
    pub fn of(inner: Vec<Text>) -> Texts
        ensures { result ≡ inner.items }
    {
        Texts { inner }
    }

    pub fn as_slice(&self) -> &[Text]
        ensures { result.now ≡ self.now }
    {
        self.inner.as_slice()
    }

    pub fn into_inner(self) -> Vec<Text>
        ensures { result.items ≡ self }
    {
        self.inner
    }

    pub fn copy(&self) -> Result<Texts, AllocError>
        ensures { IfOk result (λ copy. copy ≡ self.now) }
    {
        let mut inner: Vec<Text> = Vec::new(*self.inner.allocator());
        for item in self.inner.as_slice() {
            inner.push(item.copy()?)?;
        }
        Ok(Texts { inner })
    }

    /// Lexicographic order: text by text from the left; a proper prefix is less.
    pub fn compare(&self, other: &Texts) -> Ordering
        ensures { result ≡ texts_cmp self.now other.now }
    {
        compare_texts(self.inner.as_slice(), other.inner.as_slice())
    }

    /// Whether they are a set: strictly ascending by bytes, at most 1,024 texts, at most 65,535 bytes together.
    pub fn is_set(&self) -> bool
        ensures { IsTrue result ↔ IsSet self.now }
    {
        are_set(self.inner.as_slice())
    }
}
