//! The shape of a programme.
ghost use Rattle.std.specs.Prelude.{◌≤◌};

use text::Refusal;

/// The most tracks of a programme.
pub const MOST_TRACKS: usize = 16;

/// The shortest stretch: what the smallest settings ask for.
const SHORTEST_STRETCH: u64 = 3;

/// The longest stretch: what the largest settings ask for.
const LONGEST_STRETCH: u64 = 460;

/// The most ticks a second.
const HIGHEST_RATE: u64 = 1_000;

/// How many tracks a programme has, how many entries each track's stretch of the slab has, and how many ticks a second has.
/// A shape outside its limits does not exist.
#[derive(Clone, Copy, Debug, PartialEq, Eq)]
pub struct Shape {
    pub tracks: usize,
    pub stretch: usize,
    pub rate: u64,
    ghost some: { 1 ≤ tracks },
    ghost few: { tracks ≤ 16 },
    ghost roomy: { 3 ≤ stretch },
    ghost short: { stretch ≤ 460 },
    ghost runs: { 1 ≤ rate },
    ghost slow: { rate ≤ 1000 },
}

impl Shape {
    ghost use Rattle.std.specs.Prelude.{◌≡◌};
    ghost use Rattle.law.specs.Shapes.{Made, entries};

    /// The shape of `tracks` tracks with stretches of `stretch` entries, at `rate` ticks a second.
    pub fn new(tracks: u64, stretch: u64, rate: u64) -> Result<Shape, ShapeFault>
        ensures value { Made tracks stretch rate result }
    {
        // A cast, since `u64` has no `From<usize>`.
        if !(1..=MOST_TRACKS as u64).contains(&tracks) {
            return Err(ShapeFault::Tracks { tracks });
        }
        if !(SHORTEST_STRETCH..=LONGEST_STRETCH).contains(&stretch) {
            return Err(ShapeFault::Stretch { stretch });
        }
        if !(1..=HIGHEST_RATE).contains(&rate) {
            return Err(ShapeFault::Rate { rate });
        }
        // Both figures are tested above: `try_from` would add an error that cannot come.
        Ok(Shape {
            tracks: tracks as usize,
            stretch: stretch as usize,
            rate,
        })
    }

    /// How many entries a slab has: a stretch for each track.
    pub fn entries(&self) -> usize
        ensures value { result ≡ entries self.now }
    {
        self.tracks * self.stretch
    }
}

/// Why there is no such shape, with the figure that is refused. The first cause that holds is told.
#[derive(Clone, Copy, Debug, PartialEq, Eq)]
pub enum ShapeFault {
    /// The number of tracks is not from 1 to 16.
    Tracks { tracks: u64 },
    /// The length of a stretch is not from 3 to 460.
    Stretch { stretch: u64 },
    /// The ticks per second are not from 1 to 1,000.
    Rate { rate: u64 },
}

impl Refusal for ShapeFault {
    ghost use Rattle.std.proofs.Common.{rules};
    ghost use Rattle.law.specs.Shapes.{shape_fault_number};

    ghost number_of = { shape_fault_number };

    ghost place_of = { λ _. 0 };

    fn number(&self) -> u16 {
        match self {
            ShapeFault::Tracks { .. } => 1,
            ShapeFault::Stretch { .. } => 2,
            ShapeFault::Rate { .. } => 3,
        }
    }

    /// None of a shape's refusals has a place.
    fn place(&self) -> u64 {
        0
    }

    ghost numbered = { Prim.search rules };
}
