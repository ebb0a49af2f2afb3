// The form of a column: how its codes give the cells.

// What the codes of a column stand for.
#[derive(Clone, Copy, PartialEq, Eq)]
pub(crate) enum Form {
    // Each is an offset from one base.
    Offset,
    // Each is a difference from the cell before, with an anchor at each 64th place.
    Delta,
    // Each is the index of a text in a dictionary.
    Dictionary,
    // Each is the index of a set in a dictionary of sets.
    Sets,
}
