//! The line that is being read. Its methods are in the crate's root: their contracts cite a definition that names this type.
ghost use Rattle.std.specs.Prelude.{◌≡◌, ◌≤◌, length};

use arrayvec::ArrayVec;

/// The first `LIMIT` bytes of a line that arrives in pieces.
///
/// A caller that wants lines of up to M bytes takes a `LIMIT` of M + 1, and tells a longer line by its length.
#[derive(Drop)]
pub struct HeldLine<const LIMIT: usize> {
    // Always full, since the vector's own `clear` writes over each byte: the line begins anew by `len` alone.
    pub(crate) bytes: ArrayVec<u8, LIMIT>,
    pub(crate) len: usize,
    ghost whole: { length bytes.items ≡ LIMIT },
    ghost fits: { len ≤ LIMIT },
}
