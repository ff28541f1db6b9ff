//! What a connection and a link have in common: something may be due there, and bytes may come.
ghost use Rattle.std.specs.Prelude.{◌≡◌, ℕ, ◌≤◌, Bool, true, false, List, [], Option, Some, IfOk, OnOk, OnErr};
ghost use Rattle.proxy_engine.specs.Marked.{DiffersOnlyInSpareRoom};

use crate::endpoints::activities::Activity;
use crate::endpoints::ends::{Connection, Link};
use crate::endpoints::numbers::{ConnectionPlace, ConnectionPlaceKind, LinkPlaceKind};
use crate::endpoints::peeked::PeekableReader;
use hx_framing::{RequestReader, ResponseReader};
use std::alloc::{AllocError, Global};

/// A connection that isn't over, or a link that isn't dropped.
pub(crate) trait Endpoint: Drop {
    /// What its places are of.
    type Kind: Copy;

    /// Something may be due there.
    ghost may_show: { Self → Bool };

    /// Something is due there, and `poll` has found it.
    ghost IsShown: { Option Self → Type 0 };

    /// What `poll` may change: the new one represents the same models, and no more is to come of it.
    ghost LooksLike: { Self → Self → Type 0 };

    /// For how many bytes there is room.
    ghost spare: { Self → ℕ };

    /// The bytes that wait there.
    ghost unread: { Self → List ℕ };

    /// Nothing is known of it: it wasn't asked, or found no memory.
    ghost is_unknown: { Self → Bool };

    /// One at which nothing is due. It stands for none.
    fn empty(alloc: Global) -> Self
        ensures { may_show result ≡ false };

    /// Whether something is due there. What is found is kept, so nothing is read twice.
    fn poll(&mut self, alloc: Global) -> Result<bool, AllocError>
        ensures alike { LooksLike self.old self.new }
        ensures yes { IfOk result (λ b. b ≡ true → IsShown (Some self.new)) }
        ensures no { IfOk result (λ b. b ≡ false → may_show self.new ≡ false) }
        ensures failed { OnErr result (is_unknown self.new ≡ true) };

    /// Makes room for so many bytes. An `Err` changes nothing.
    fn reserve(&mut self, n: usize) -> Result<(), AllocError>
        ensures grows { DiffersOnlyInSpareRoom LooksLike may_show self.old self.new }
        ensures ok { OnOk result (n ≤ spare self.new) }
        ensures err { OnErr result (self.new ≡ self.old) };

    /// Gives back the room that was made, where no byte waits.
    fn release_room(&mut self, alloc: Global)
        ensures alike { DiffersOnlyInSpareRoom LooksLike may_show self.old self.new }
        ensures given { unread self.new ≡ [] → spare self.new ≡ 0 };

    ghost looks_like_itself: { (x : Self) → LooksLike x x };

    ghost looks_on: { (x y z : Self) → LooksLike x y → LooksLike y z → LooksLike x z };
}

impl Endpoint for Connection {
    type Kind = ConnectionPlaceKind;

    ghost use Rattle.proxy_engine.specs.Marked.{connection_may_be_due, LookingAheadKeepsConnection};
    ghost use Rattle.proxy_engine.specs.Marked.{LookaheadShowsWhatIsDueOnConnection};
    ghost use Rattle.proxy_engine.specs.Exhausted.{connection_lookahead_is_unknown};
    ghost use Rattle.std.proofs.Common.{refl, ◌∙◌};
    ghost use Rattle.std.proofs.Math.Nat.{le_refl, le_trans};

    ghost may_show = { connection_may_be_due };

    ghost IsShown = { LookaheadShowsWhatIsDueOnConnection };

    ghost LooksLike = { LookingAheadKeepsConnection };

    ghost spare = { λ c. c.reader.inner.spare };

    ghost unread = { λ c. c.reader.inner.unread };

    ghost is_unknown = { connection_lookahead_is_unknown };

    fn empty(alloc: Global) -> Self {
        Connection {
            reader: PeekableReader::new(RequestReader::new(alloc, 0)),
            ended: false,
            gone: true,
            retired: false,
            activity: Activity::Free,
        }
    }

    fn poll(&mut self, alloc: Global) -> Result<bool, AllocError> {
        if self.gone || self.activity.has_exchange() {
            return Ok(false);
        }
        self.reader.look_ahead(alloc)?;
        Ok(self.reader.peek().is_some())
    }

    fn reserve(&mut self, n: usize) -> Result<(), AllocError> {
        self.reader.inner.reserve(n)
    }

    fn release_room(&mut self, alloc: Global) {
        self.reader.inner.release_room(alloc)
    }

    ghost looks_like_itself = { λ c. record { represents = λ s h. h; gone = refl; activity = refl; load = le_refl _ } };

    ghost looks_on = { λ x y z r q. record {
      represents = λ s h. q.represents s (r.represents s h);
      gone = q.gone ∙ r.gone;
      activity = q.activity ∙ r.activity;
      load = le_trans q.load r.load;
    } };
}

impl Endpoint for Link {
    type Kind = LinkPlaceKind;

    ghost use Rattle.proxy_engine.specs.Marked.{link_may_be_due, LinkAfterLookahead, LookaheadShowsWhatIsDueOnLink};
    ghost use Rattle.proxy_engine.specs.Exhausted.{link_lookahead_is_unknown};
    ghost use Rattle.std.proofs.Common.{refl, ◌∙◌};
    ghost use Rattle.std.proofs.Math.Nat.{le_refl, le_trans};

    ghost may_show = { link_may_be_due };

    ghost IsShown = { LookaheadShowsWhatIsDueOnLink };

    ghost LooksLike = { LinkAfterLookahead };

    ghost spare = { λ k. k.reader.inner.spare };

    ghost unread = { λ k. k.reader.inner.unread };

    ghost is_unknown = { link_lookahead_is_unknown };

    fn empty(alloc: Global) -> Self {
        Link {
            reader: PeekableReader::new(ResponseReader::new(alloc, 0, false)),
            ended: false,
            failed: None,
            connection: ConnectionPlace::at(0),
        }
    }

    fn poll(&mut self, alloc: Global) -> Result<bool, AllocError> {
        self.reader.look_ahead(alloc)?;
        Ok(self.reader.peek().is_some() || self.failed.is_some())
    }

    fn reserve(&mut self, n: usize) -> Result<(), AllocError> {
        self.reader.inner.reserve(n)
    }

    fn release_room(&mut self, alloc: Global) {
        self.reader.inner.release_room(alloc)
    }

    ghost looks_like_itself = { λ k. record { represents = λ s h. h; connection = refl; load = le_refl _ } };

    ghost looks_on = { λ x y z r q. record {
      represents = λ s h. q.represents s (r.represents s h);
      connection = q.connection ∙ r.connection;
      load = le_trans q.load r.load;
    } };
}
