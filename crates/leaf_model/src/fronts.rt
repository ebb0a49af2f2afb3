// A prefix of bytes that spells texts, cells or rows. More bytes may follow it.
ghost use Rattle.std.specs.Prelude.{IsSome};
ghost use Rattle.leaf_model.specs.Reading.{rows_at, texts_at};
ghost use Rattle.leaf_model.specs.Fronts.{any_cells_at};

/// `count` texts at the start of `bytes`, each after its length.
#[derive(Clone, Copy)]
pub struct SpelledTexts<'a> {
    pub(crate) bytes: &'a [u8],
    pub(crate) count: u16,
    ghost spelled: { IsSome (texts_at count bytes.now) },
}

/// `count` cells at the start of `bytes`.
#[derive(Clone, Copy)]
pub struct SpelledCells<'a> {
    pub(crate) bytes: &'a [u8],
    pub(crate) count: u16,
    ghost spelled: { IsSome (any_cells_at count bytes.now) },
}

/// `count` rows at the start of `bytes`.
#[derive(Clone, Copy)]
pub struct SpelledRows<'a> {
    pub(crate) bytes: &'a [u8],
    pub(crate) count: usize,
    ghost spelled: { IsSome (rows_at count bytes.now) },
}
