//! What a counting rule is.
ghost use Rattle.std.specs.Prelude.{◌≡◌, ℕ, ◌<◌, ◌≤◌};

/// The last code point.
pub const LAST_CODE_POINT: u32 = 1_114_111;

/// A counting rule gives each code point from 0 to 1,114,111 a weight from 0 to 4.
///
/// Its meaning is that list of weights, the ghost member `weight`. Whoever supplies a rule proves the two laws, and
/// that asking answers the meaning's weight and leaves the rule as it was.
pub trait CountingRule {
    ghost weight: { Self → ℕ → ℕ };

    /// The weight of a code point, and 0 for a number above the last one.
    fn weight_of(&self, code_point: u32) -> u8
        ensures value { result ≡ weight self.now code_point }
        ensures same { self.exit.now ≡ self.entry.now };

    ghost small: { (rule : Self) (c : ℕ) → weight rule c ≤ 4 };

    ghost outside: { (rule : Self) (c : ℕ) → 1114111 < c → weight rule c ≡ 0 };
}
