//! What a stretch of memory holds.

/// A bucket: it stands for 2^`exponent` arrivals, the newest of which came at the tick `stamp`. Where no bucket is, both
/// are 0. Two whole words: an entry is read and compared faster without padding.
#[derive(Clone, Copy, PartialEq, Eq, Debug)]
pub struct Entry {
    pub stamp: u64,
    pub exponent: u64,
}

/// What an entry holds where no bucket is.
pub const NO_BUCKET: Entry = Entry {
    stamp: 0,
    exponent: 0,
};
