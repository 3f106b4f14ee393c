//! Clearing a stretch.
ghost use Rattle.std.specs.Prelude.{◌≡◌, length};
ghost use Rattle.theory.specs.Sound.{zeros};

use theory::{Entry, NO_BUCKET};

/// Clears a stretch: every entry becomes zero.
pub fn clear(stretch: &mut [Entry])
    ensures cleared { stretch.new ≡ zeros (length stretch.old) }
{
    stretch.fill(NO_BUCKET);
}
