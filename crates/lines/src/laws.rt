//! The laws of cutting a stream into lines. Each function's contract is a law, and it does nothing.
ghost use Rattle.lines.specs.Lines.{ByLength, Cuts, Kept, Pieces};

/// However the bytes arrive in pieces, the lines are the same.
pub fn pieces()
    ensures { Pieces }
{}

/// To keep the first bytes as pieces come is to keep the first bytes of the whole line.
pub fn kept()
    ensures { Kept }
{}

/// The length of a line says whether it ends in the bytes, and where.
pub fn by_length()
    ensures { ByLength }
{}

/// The lines and the rest are the stream's bytes, and no other lines are.
pub fn cuts()
    ensures { Cuts }
{}
