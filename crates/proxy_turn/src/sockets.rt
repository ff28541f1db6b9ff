//! The ends of a proxy as calls that may fail.
ghost use Rattle.std.specs.Prelude.{◌≡◌, ℕ, List, [], ◌∷◌, ◌++◌, length, IfOk, is_ok, option_copied};
ghost use Rattle.proxy_turn.specs.Calls.{Call, Accept, Read, Write, Connect, Shut, accept_outcome_of, read_outcome_of};
ghost use Rattle.proxy_turn.specs.Counts.{CountRisesBy, failed};
ghost use Rattle.proxy_reads.specs.Received.{ReceivedBytesAreAtMostRoom};

use hx_status::ReplyData;
use proxy_engine::End;
use proxy_reads::Received;
use std::net::SocketAddrV4;

/// A call on a socket failed. No further call is made on its end.
#[derive(Clone, Copy, Debug, PartialEq, Eq)]
pub struct SocketCallFailed;

/// A listener, the clients that it accepted and the links to origins, each client and link by its number.
pub trait Sockets {
    /// These calls, the oldest first, led from one state to another.
    ghost Did: { Self → List Call → Self → Type 0 };

    /// How often `accept` was called.
    ghost accepts: { Self → ℕ };

    /// How often `read` was called.
    ghost reads: { Self → ℕ };

    /// How many calls failed.
    ghost failures: { Self → ℕ };

    /// Accepts a connection under this number, if one waits.
    fn accept(&mut self, n: u64) -> Result<bool, SocketCallFailed>
        ensures did { Did self.old (Accept n (accept_outcome_of result) ∷ []) self.new }
        ensures accepts { CountRisesBy (accepts self.old) (accepts self.new) 1 }
        ensures reads { reads self.new ≡ reads self.old }
        ensures failures { CountRisesBy (failures self.old) (failures self.new) (failed result) };

    /// Reads what has come from a client or on a link, at most as many bytes as there is room for.
    fn read(&mut self, end: End, buf: &mut [u8]) -> Result<Received, SocketCallFailed>
        ensures did { Did self.old (Read end (read_outcome_of result buf.new) ∷ []) self.new }
        ensures within { IfOk result (ReceivedBytesAreAtMostRoom (length buf.old)) }
        ensures length { length buf.new ≡ length buf.old }
        ensures accepts { accepts self.new ≡ accepts self.old }
        ensures reads { CountRisesBy (reads self.old) (reads self.new) 1 }
        ensures failures { CountRisesBy (failures self.old) (failures self.new) (failed result) };

    /// Writes all of the bytes to a client or on a link, or fails. To a client it says with them what reply they are
    /// and what it answers, unless they are an interim response; on a link it says nothing.
    fn write(
        &mut self,
        end: End,
        bytes: &[u8],
        replied: Option<&ReplyData>,
    ) -> Result<(), SocketCallFailed>
        ensures did { Did self.old (Write end bytes.now (option_copied replied.entry) (is_ok result) ∷ []) self.new }
        ensures accepts { accepts self.new ≡ accepts self.old }
        ensures reads { reads self.new ≡ reads self.old }
        ensures failures { CountRisesBy (failures self.old) (failures self.new) (failed result) };

    /// Opens the link of this number to an address.
    fn connect(&mut self, link: u64, address: SocketAddrV4) -> Result<(), SocketCallFailed>
        ensures did { Did self.old (Connect link address (is_ok result) ∷ []) self.new }
        ensures accepts { accepts self.new ≡ accepts self.old }
        ensures reads { reads self.new ≡ reads self.old }
        ensures failures { CountRisesBy (failures self.old) (failures self.new) (failed result) };

    /// Closes a client's connection or a link.
    fn shut(&mut self, end: End) -> Result<(), SocketCallFailed>
        ensures did { Did self.old (Shut end (is_ok result) ∷ []) self.new }
        ensures accepts { accepts self.new ≡ accepts self.old }
        ensures reads { reads self.new ≡ reads self.old }
        ensures failures { CountRisesBy (failures self.old) (failures self.new) (failed result) };

    /// With no call it stays the same state.
    ghost none: { (s : Self) → Did s [] s };

    ghost joined: { (s t u : Self) (a b : List Call) → Did s a t → Did t b u → Did s (a ++ b) u };
}
