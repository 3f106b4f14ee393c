//! Inserting several arrivals of one tick in one pass.
//!
//! Each level takes in what the level below hands up: `new` buckets of the tick, and some older stamps. Of these and its
//! own buckets the newest stay, and the newer of each pair of the rest goes up. The stretch is read on the way up and
//! written on the way back, so that nothing is overwritten before it is read.
ghost use Rattle.std.specs.Prelude.{◌≡◌, ℕ, ◌+◌, ◌-◌, ◌*◌, ◌≤◌, List, ◌++◌, map, length, replicate};
ghost use Rattle.arrayvec.specs.ArrayVec.{array_vec_len};
ghost use Rattle.theory.specs.Levels.{newer, staying};
ghost use Rattle.histogram.specs.declared.inserting.TheConstants.{MOST_HELD};
ghost use Rattle.histogram.specs.Raising.{laid, of_size, own_of, raised, Ready};

use super::track::Histogram;
use arrayvec::ArrayVec;
use theory::{Entry, NO_BUCKET};

/// The most stamps that a level holds at once: l + 1 from below and l + 1 of its own, with l up to 16.
const MOST_HELD: usize = 34;

/// One level's turn.
#[derive(Clone, Copy)]
struct Turn {
    /// l.
    half: usize,
    /// The tick of the arrivals.
    tick: u64,
    /// Where the buckets of the stretch end.
    end: usize,
    /// The level's exponent.
    exponent: u64,
    /// Where the level's buckets begin.
    read: usize,
    /// Where they are to begin.
    write: usize,
    /// How many buckets of the tick come in.
    new: usize,
}

/// Appends to `held` the newer of each pair of `olds`.
fn gather_newer(held: &mut ArrayVec<u64, MOST_HELD>, olds: &[u64])
    requires room { array_vec_len held.old + length (newer olds.now) ≤ MOST_HELD }
    ensures holds { held.new.items ≡ held.old.items ++ newer olds.now }
{
    for pair in olds.chunks(2) {
        held.push(pair[0]);
    }
}

/// Appends to `held` the stamps of the buckets of this exponent at the front of `buckets`.
fn gather_own(held: &mut ArrayVec<u64, MOST_HELD>, buckets: &[Entry], exponent: u64)
    requires room { array_vec_len held.old + length (own_of exponent buckets.now) ≤ MOST_HELD }
    ensures holds { held.new.items ≡ held.old.items ++ own_of exponent buckets.now }
{
    for bucket in buckets {
        if bucket.exponent != exponent {
            return;
        }
        held.push(bucket.stamp);
    }
}

/// Fills `place` with `new` buckets of stamp `tick` and then those of the stamps `olds`, all of this exponent.
fn put(place: &mut [Entry], exponent: u64, tick: u64, new: usize, olds: &[u64])
    requires room { length place.old ≡ new + length olds.now }
    ensures filled { place.new ≡ map (of_size exponent) (replicate new tick ++ olds.now) }
{
    place[..new].fill(Entry {
        stamp: tick,
        exponent,
    });
    // By index, since a proof knows only the length of what `iter_mut().zip(..)` has lent; of `iter_mut` alone it knows the values.
    for (k, &stamp) in olds.iter().enumerate() {
        place[new + k] = Entry { stamp, exponent };
    }
}

/// How many of `n` buckets of a level stay there; the rest goes up in pairs.
fn stays(n: usize, half: usize) -> usize
    ensures value { result ≡ staying half n }
{
    n - 2 * (n.saturating_sub(half) / 2)
}

/// The level whose turn it is and all above it, into which its new buckets and the newer of each pair of `olds` come.
/// Answers where the buckets end then.
fn raise(stretch: &mut [Entry], turn: Turn, olds: &[u64]) -> usize
    requires half { (1 ≤ turn.half) × (turn.half ≤ 16) }
    requires new { turn.new ≤ 65536 }
    requires olds { length olds.now ≤ 2 * turn.half + 2 }
    requires places { (turn.read ≤ turn.end) × (turn.end ≤ length stretch.old) }
    requires ready { (levels : List (List ℕ)) × Ready turn olds.now stretch.old levels }
    ensures raised { (levels : List (List ℕ)) → Ready turn olds.now stretch.old levels
        → (stretch.new ≡ laid turn.write (raised turn olds.now levels) stretch.old)
        × (result ≡ turn.write + length (raised turn olds.now levels)) }
{
    if turn.new + olds.len() == 0 {
        // Nothing comes in: this level and those above it only move.
        stretch.copy_within(turn.read..turn.end, turn.write);
        return turn.write + (turn.end - turn.read);
    }
    let mut held = ArrayVec::new();
    gather_newer(&mut held, olds);
    let came = held.len();
    gather_own(&mut held, &stretch[turn.read..turn.end], turn.exponent);
    let own = held.len() - came;
    let stay = stays(turn.new + held.len(), turn.half);
    let new = turn.new.min(stay);
    let old = stay - new;
    // A last new one that has no other to pair with takes the newest of the older stamps that go.
    let spare = turn.new - new;
    let above = Turn {
        exponent: turn.exponent + 1,
        read: turn.read + own,
        write: turn.write + stay,
        new: (spare + 1) / 2,
        ..turn
    };
    let end = raise(stretch, above, &held[old + spare % 2..]);
    put(
        &mut stretch[turn.write..turn.write + stay],
        turn.exponent,
        turn.tick,
        new,
        &held[..old],
    );
    end
}

impl Histogram {
    ghost use Rattle.std.specs.Prelude.{◌≡◌, ◌+◌, ◌*◌, ◌≤◌, true, length, take, drop};
    ghost use Rattle.theory.specs.Buckets.{insertions, total, closing_figure};
    ghost use Rattle.theory.specs.Sound.{every, is_zero, formed};
    ghost use Rattle.histogram.specs.Entering.{padded};

    /// Of the buckets of a stretch the first `kept` stay; then `arrivals` come at `tick`, one after another. What is past
    /// the last bucket becomes zero. Answers how many buckets there are then.
    pub(crate) fn insert(
        &self,
        stretch: &mut [Entry],
        kept: usize,
        tick: u64,
        arrivals: usize,
    ) -> usize
        requires places { (kept ≤ self.now.standing.buckets) × ((self.now.standing.buckets ≤ length stretch.old) × ((self.now.settings.half + 1) * (self.now.settings.top + 1) ≤ length stretch.old)) }
        requires past { every is_zero (drop self.now.standing.buckets stretch.old) ≡ true }
        requires form { formed self.now.settings.half tick (take kept stretch.old) ≡ true }
        requires room { (arrivals ≤ 1024) × (total (take kept stretch.old) + arrivals ≤ closing_figure self.now.settings.half self.now.settings.top) }
        ensures after { stretch.new ≡ padded (length stretch.old) (insertions self.now.settings.half arrivals tick (take kept stretch.old)) }
        ensures many { result ≡ length (insertions self.now.settings.half arrivals tick (take kept stretch.old)) }
    {
        // l by a cast: `usize` has no `From<u64>`, and the check proves that it loses nothing.
        let turn = Turn {
            half: self.settings.half as usize,
            tick,
            end: kept,
            exponent: 0,
            read: 0,
            write: 0,
            new: arrivals,
        };
        let end = raise(stretch, turn, &[]);
        let buckets = self.standing.buckets;
        if end < buckets {
            stretch[end..buckets].fill(NO_BUCKET);
        }
        end
    }
}
