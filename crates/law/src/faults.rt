//! Why a call is refused.
ghost use Rattle.std.specs.Prelude.{◌≡◌};
ghost use Rattle.std.proofs.Common.{rules};
ghost use Rattle.law.specs.Faults.{call_fault_number, call_fault_place};
ghost use Rattle.law.specs.declared.faults.CallFault.TheVariants.{Text};

use text::{Refusal, TextFault};

/// Why a call is refused, with what the refusal reports.
#[derive(Clone, Copy, Debug, PartialEq, Eq)]
pub enum CallFault {
    /// The slab has not a stretch for each track.
    SlabLength,
    /// There is no track of that number.
    NoSuchTrack,
    /// The track is open already.
    AlreadyOpen,
    /// The tick is above 2^40 − 1.
    LateTick,
    /// k is not even, or not from 2 to 32.
    BadK,
    /// The longest window N is not from 1 to 1,048,576.
    BadLongest,
    /// The cap R is not from 1 to 1,024.
    BadCap,
    /// A stretch has fewer entries than the track's room.
    NoRoom { room: u64 },
    /// The track is not open.
    NotOpen { track: u64 },
    /// The tick is before the track's own.
    EarlyTick { track: u64 },
    /// The text is refused.
    Text(TextFault),
    /// The track's stretch is not sound.
    Unsound { track: u64 },
    /// The weight at the tick would pass the track's cap.
    OverCap { track: u64 },
    /// The kept sizes with the line would pass the closing figure.
    Full { track: u64 },
    /// The window is not from 1 to the track's longest.
    BadWindow { track: u64 },
    /// The window is not from 1 to 1,048,576, the longest that any track can have.
    NoWindow,
}

impl Refusal for CallFault {
    ghost number_of = { call_fault_number };

    ghost place_of = { call_fault_place };

    fn number(&self) -> u16 {
        match self {
            CallFault::SlabLength => 4,
            CallFault::NoSuchTrack => 5,
            CallFault::AlreadyOpen => 6,
            CallFault::LateTick => 7,
            CallFault::BadK => 8,
            CallFault::BadLongest => 9,
            CallFault::BadCap => 10,
            CallFault::NoRoom { .. } => 11,
            CallFault::NotOpen { .. } => 12,
            CallFault::EarlyTick { .. } => 13,
            CallFault::Text(fault) => fault.number(),
            CallFault::Unsound { .. } | CallFault::Full { .. } => 16,
            CallFault::OverCap { .. } => 17,
            CallFault::BadWindow { .. } | CallFault::NoWindow => 18,
        }
    }

    /// The room, the track, the text's own place, or 0.
    fn place(&self) -> u64 {
        match self {
            CallFault::NoRoom { room } => *room,
            CallFault::NotOpen { track }
            | CallFault::EarlyTick { track }
            | CallFault::Unsound { track }
            | CallFault::OverCap { track }
            | CallFault::Full { track }
            | CallFault::BadWindow { track } => *track,
            CallFault::Text(fault) => fault.place(),
            _ => 0,
        }
    }

    ghost numbered = { Prim.search rules };
}

impl From<TextFault> for CallFault {
    ghost from_gives = { λ fault r. r ≡ Text fault };

    fn from(fault: TextFault) -> CallFault {
        CallFault::Text(fault)
    }
}
