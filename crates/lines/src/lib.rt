//! Cuts a stream of bytes that arrives in pieces into lines.
//!
//! A line ends before byte 10, which is not part of it. What stands after the last byte 10 is a line too, if it has at
//! least one byte. A caller goes through a piece line by line: up to the line's length it extends the line that it
//! holds, and where the piece goes on, the line has ended there, and the next begins after its byte 10.
#![tactic(auto)]

ghost use Rattle.std.specs.Prelude.{◌≡◌, ◌≤◌, [], ◌++◌, length, take, ◌==◌};
ghost use Rattle.lines.specs.Held.{held};
ghost use Rattle.lines.specs.Lines.{line_length};

use arrayvec::ArrayVec;
pub use held::HeldLine;
use memchr::memchr;

mod held;
pub mod laws;

/// The byte that ends a line, and is not part of it.
pub const LINE_END: u8 = 10;

/// How many of a line's first bytes are looked at one by one: a search of many at a time takes longer to begin.
const NEAR: usize = 16;

/// How many more bytes without a line end make such a search worth its start.
const FAR: usize = 32;

/// How many bytes stand before the first [`LINE_END`]: all of them if there is none.
#[inline]
pub fn line_length(bytes: &[u8]) -> usize
    ensures value { result ≡ line_length bytes.now }
    ensures within { result ≤ length bytes.now }
{
    let Some((near, rest)) = bytes.split_first_chunk::<NEAR>() else {
        return near_length(bytes);
    };
    let length = near_length(near);
    if length < NEAR {
        return length;
    }
    NEAR + rest_length(rest)
}

/// The same, by a search of many bytes at a time where the line does not end in the first of them.
#[inline(never)]
#[tactic(auto, using(crate::proofs::FirstEnd::first_end))]
fn rest_length(rest: &[u8]) -> usize
    ensures value { result ≡ line_length rest.now }
    ensures within { result ≤ length rest.now }
{
    match rest.first_chunk::<FAR>() {
        Some(first) if !first.contains(&LINE_END) => memchr(LINE_END, rest).unwrap_or(rest.len()),
        _ => near_length(rest),
    }
}

/// The same, byte by byte. Of an array, whose length is known, the loop is laid out in full.
#[inline(always)]
fn near_length(bytes: &[u8]) -> usize
    ensures value { result ≡ line_length bytes.now }
    ensures within { result ≤ length bytes.now }
{
    for (i, b) in bytes.iter().enumerate() {
        if *b == LINE_END {
            return i;
        }
    }
    bytes.len()
}

impl<const LIMIT: usize> HeldLine<LIMIT> {
    /// A line of which nothing has come.
    pub fn new() -> Self
        ensures made { held result ≡ [] }
    {
        HeldLine {
            bytes: ArrayVec::from_array_in((), [0; LIMIT]),
            len: 0,
        }
    }

    /// The bytes that are kept of the line.
    pub fn bytes(&self) -> &[u8]
        ensures value { result.now ≡ held self.now }
        ensures fits { length result.now ≤ LIMIT }
    {
        let all = self.bytes.as_slice();
        &all[0..self.len]
    }

    /// Whether no byte is kept.
    pub fn is_empty(&self) -> bool
        ensures value { result ≡ (length (held self.now) == 0) }
    {
        self.bytes().is_empty()
    }

    /// Adds the next piece of the line, and keeps the first `LIMIT` bytes of the whole.
    pub fn extend(&mut self, piece: &[u8])
        ensures after { held self.new ≡ take LIMIT (held self.old ++ piece.now) }
    {
        let start = self.len;
        let more = piece.len().min(LIMIT - start);
        self.bytes.as_mut_slice()[start..start + more].copy_from_slice(&piece[..more]);
        self.len = start + more;
    }

    /// Begins the next line: nothing is kept.
    pub fn clear(&mut self)
        ensures after { held self.new ≡ [] }
    {
        self.len = 0;
    }
}

#[cfg(test)]
mod tests {
    use super::*;

    #[test]
    fn a_line_in_pieces(rt: HostRuntime) {
        let mut line = HeldLine::<5>::new();
        line.extend(b"su");
        line.extend(b"bt");
        assert_eq!(rt; line.bytes(), b"subt".as_slice());
        line.extend(b"itle");
        assert_eq!(rt; line.bytes(), b"subti".as_slice(), "five bytes are kept");
        line.clear();
        assert!(rt; line.is_empty());
    }

    #[test]
    fn lengths_of_lines(rt: HostRuntime) {
        assert_eq!(rt; line_length(b"ab\ncd\n"), 2);
        assert_eq!(rt; line_length(b"\n"), 0);
        assert_eq!(rt; line_length(b"abcd"), 4);
    }
}
