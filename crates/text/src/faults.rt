//! What a refusal reports, and why a text is refused.
ghost use Rattle.std.specs.Prelude.{◌≡◌, ℕ, ◌≤◌};
ghost use Rattle.std.proofs.Common.{rules};
ghost use Rattle.text.specs.Faults.{text_fault_number, text_fault_place};

/// What a refusal reports: the number of its cause, and a place.
///
/// A body of `place` written here would be proved for all refusals at once, so one without a place writes its 0.
pub trait Refusal {
    ghost number_of: { Self → ℕ };

    ghost place_of: { Self → ℕ };

    /// The number under which the refusal is reported.
    fn number(&self) -> u16
        ensures { result ≡ number_of self.now };

    /// The place that is reported with the number, and 0 where the refusal names none.
    fn place(&self) -> u64
        ensures { result ≡ place_of self.now };

    ghost numbered: { (fault : Self) → (1 ≤ number_of fault) × (number_of fault ≤ 27) };
}

/// Why a text is refused, with what the refusal reports.
#[derive(Clone, Copy, Debug, PartialEq, Eq)]
pub enum TextFault {
    /// The text has more than 240 bytes.
    TooLong,
    /// No character's encoding begins `at` bytes into the text, and all before that is well formed.
    Malformed { at: usize },
}

impl Refusal for TextFault {
    ghost number_of = { text_fault_number };

    ghost place_of = { text_fault_place };

    fn number(&self) -> u16 {
        match self {
            TextFault::TooLong => 14,
            TextFault::Malformed { .. } => 15,
        }
    }

    fn place(&self) -> u64 {
        match self {
            TextFault::TooLong => 0,
            // A cast, since `u64` has no `From<usize>`; the check proves that it loses nothing.
            TextFault::Malformed { at } => *at as u64,
        }
    }

    ghost numbered = { Prim.search rules };
}
