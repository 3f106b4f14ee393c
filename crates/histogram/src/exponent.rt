//! The largest exponent that a number of arrivals can need.
ghost use Rattle.std.specs.Prelude.{◌+◌, ◌-◌, ◌*◌, ◌^◌, ◌≤◌};
ghost use Rattle.theory.specs.Arrivals.{Largest};
ghost use Rattle.histogram.specs.Settings.{Exponent};

/// The largest r with `half` × (2^r − 1) below `arrivals`, where there is one.
pub(crate) fn exponent_for(half: u64, arrivals: u64) -> u32
    requires some { (1 ≤ half) × (1 ≤ arrivals) }
    ensures value { Largest half arrivals result }
    ensures next { arrivals ≤ half * (2 ^ (result + 1) - 1) }
{
    let quotient = (arrivals - 1) / half;
    63 - (quotient + 1).leading_zeros()
}

/// The largest r with `half` × (2^r − 1) below `arrivals`. There is none where `half` or `arrivals` is 0.
pub fn largest_exponent(half: u64, arrivals: u64) -> Option<u32>
    ensures value { Exponent half arrivals result }
{
    (half != 0 && arrivals != 0).then(|| exponent_for(half, arrivals))
}
