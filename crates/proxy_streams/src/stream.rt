//! A stream that never waits.
ghost use Rattle.std.specs.Prelude.{◌≡◌, ℕ, List, [], ◌∷◌, ◌++◌, length};
ghost use Rattle.std.specs.Io.{ReadsAtMost, WritesAtMost};
ghost use Rattle.proxy_streams.specs.Peers.{PeerReadOutcome, read_outcome_of_result, prefix_taken_by_write};

use std::io;

/// A stream to a client or an origin. No call waits.
pub trait Stream {
    /// From one state to another the stream took these bytes, and each of its reads gave this, the oldest first.
    ghost Passed: { Self → List ℕ → List PeerReadOutcome → Self → Type 0 };

    /// From one state to another nothing happened but that its peer was told that nothing more comes.
    ghost WasShut: { Self → Self → Type 0 };

    /// Reads what has come, at most as many bytes as there is room for.
    fn read(&mut self, buf: &mut [u8]) -> io::Result<usize>
        ensures bound { ReadsAtMost result buf.new }
        ensures passed { Passed self.old [] (read_outcome_of_result result buf.new ∷ []) self.new };

    /// Writes of the front of the bytes as many as it takes; answers how many.
    fn write(&mut self, bytes: &[u8]) -> io::Result<usize>
        ensures bound { WritesAtMost result bytes.now }
        ensures passed { Passed self.old (prefix_taken_by_write result bytes.now) [] self.new };

    /// Tells the peer that nothing more comes.
    fn shut_down(&mut self) -> io::Result<()>
        ensures shut { WasShut self.old self.new };

    /// Ends the connection at once, so that nothing of it stays with the system. Nothing is read or written behind it.
    fn reset(&mut self);

    /// With no call it stays the same state.
    ghost none: { (s : Self) → Passed s [] [] s };

    ghost joined: { (s t u : Self) (a b : List ℕ) (c d : List PeerReadOutcome) → Passed s a c t → Passed t b d u
        → Passed s (a ++ b) (c ++ d) u };
}
