// The lines of an answer as a list.
ghost use Rattle.std.specs.Prelude.{◌≡◌};

use leaf_model::Text;
use std::marker::Model;

/// The lines of an answer, without their ends. Contracts see them as the list.
#[derive(Drop)]
pub struct Lines {
    inner: Vec<Text>,
}

impl Model for Lines {
    ghost use Rattle.std.specs.Prelude.{List};
    ghost use Rattle.row_model.specs.declared.text.Text.{Text};

    ghost Value = { List Text };

    ghost view = { λ list. list.inner.items };
}

impl Lines {
    pub fn of(inner: Vec<Text>) -> Lines
        ensures { result ≡ inner.items }
    {
        Lines { inner }
    }

    pub fn as_slice(&self) -> &[Text]
        ensures { result.now ≡ self.now }
    {
        self.inner.as_slice()
    }

    pub fn into_inner(self) -> Vec<Text>
        ensures { result.items ≡ self }
    {
        self.inner
    }
}
