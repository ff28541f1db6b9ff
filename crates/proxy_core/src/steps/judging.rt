//! What the reuse rules say of a request over a shelf.
ghost use Rattle.std.specs.Prelude.{◌≡◌, IfOk};
ghost use Rattle.hx_reuse.specs.Rules.{decision_of};

use hx_directives::Directives;
use hx_hop::Asked;
use hx_policy::Policy;
use hx_reuse::{Decision, decide};
use hx_store::Shelf;
use std::alloc::{AllocError, Global};

/// Whether a held response may be sent, and which, or the first rule against it. The directives of the request are read
/// first; the policy of its line is handed in.
pub(crate) fn judge<S: Shelf>(
    alloc: Global,
    shelf: &S,
    asked: &Asked,
    now: u64,
    policy: Policy,
) -> Result<Decision, AllocError>
    ensures { IfOk result (λ decision. decision ≡ decision_of policy (S.entries shelf.now) asked.now now) }
{
    let directives = Directives::of(alloc, &asked.fields)?;
    decide(alloc, asked, &directives, shelf, now, policy)
}
