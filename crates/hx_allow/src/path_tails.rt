//! What is looked at first of a line's path.
//!
//! It stands in the line itself, so most lines that don't match are passed over without a look at
//! the bytes of their paths.
ghost use Rattle.std.specs.Prelude.{◌≡◌};
ghost use Rattle.hx_allow.specs.PathTails.{path_may_match_tail, path_length_and_end_of};

/// How long a line's path is, and its last byte. Of `/`, which every path matches, the size is 0.
#[derive(Clone, Copy)]
pub struct PathLengthAndLastByte {
    size: usize,
    last: u8,
}

impl PathLengthAndLastByte {
    /// That of a line's path.
    pub fn of(path: &[u8]) -> PathLengthAndLastByte
        ensures { result ≡ path_length_and_end_of path.now }
    {
        if path == b"/".as_slice() {
            return PathLengthAndLastByte { size: 0, last: 0 };
        }
        PathLengthAndLastByte {
            size: path.len(),
            last: path.last().copied().unwrap_or(0),
        }
    }

    /// Whether an asked path has that byte there. A path that doesn't isn't matched by the line.
    pub fn may_match(self, asked: &[u8]) -> bool
        ensures { result ≡ path_may_match_tail self asked.now }
    {
        if self.size == 0 {
            return true;
        }
        match asked.get(self.size - 1) {
            Some(byte) => *byte == self.last,
            None => false,
        }
    }
}
