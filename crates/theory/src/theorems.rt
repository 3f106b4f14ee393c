//! The theorems, each the promise of one function.
ghost use Rattle.theory.specs.Theorems.{EmptyKeeps, InsertionKeeps, DroppingKeeps, BracketsTruth, FewBuckets};
ghost use Rattle.theory.specs.Theorems.{ArrivalsInWindow, DroppingSound, InsertionSound, NeverFull, BatchIsRepeated};

/// No buckets are a histogram of no arrivals.
pub fn empty_keeps()
    ensures holds { EmptyKeeps }
{}

/// A histogram into which an arrival is inserted is one of the arrivals with it: the buckets stay formed, and they stand
/// for consecutive groups of arrivals, newest first, each stamped with its newest.
pub fn insertion_keeps()
    ensures holds { InsertionKeeps }
{}

/// A histogram from which expired buckets are dropped is one of the same arrivals: what it no longer covers has expired.
pub fn dropping_keeps()
    ensures holds { DroppingKeeps }
{}

/// The true count of a window lies between low and high, and k times their gap is at most twice the count.
pub fn brackets_truth()
    ensures holds { BracketsTruth }
{}

/// There are at most (l + 1) × (e + 1) buckets, where l × (2^e − 1) is below the number of arrivals.
pub fn few_buckets()
    ensures holds { FewBuckets }
{}

/// A cap on the arrivals at each tick caps those of a window.
pub fn arrivals_in_window()
    ensures holds { ArrivalsInWindow }
{}

/// Dropping leaves sound buckets sound.
pub fn dropping_sound()
    ensures holds { DroppingSound }
{}

/// Dropping and inserting leave sound buckets sound, as long as the closing figure is not passed.
pub fn insertion_sound()
    ensures holds { InsertionSound }
{}

/// With few enough arrivals in the window, the closing figure is not passed and the buckets fit the room.
pub fn never_full()
    ensures holds { NeverFull }
{}

/// Inserting arrivals in a batch, level by level, is inserting them one by one.
pub fn batch_is_repeated()
    ensures holds { BatchIsRepeated }
{}
