//! A piece as a number. The law is the contract of a function that does nothing.

ghost use Rattle.std.specs.Prelude.{◌≡◌};
ghost use Rattle.hr_edges.specs.declared.reading.TheConstants.{PIECE_LEN};

/// How much is asked for at once.
pub fn piece_as_stated()
    ensures { PIECE_LEN ≡ 65536 }
{}
