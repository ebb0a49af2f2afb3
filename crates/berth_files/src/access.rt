// How a leaf's files are opened.

/// How a leaf's files are opened.
#[derive(Clone, Copy, Drop)]
pub enum Access {
    /// Reads and writes. Each file is locked while it is open.
    Serve,
    /// Reads alone, beside a program that serves the leaf. Each write fails.
    Look,
}
