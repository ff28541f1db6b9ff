//! What a connection does with the last request that it took: nothing any more, or its exchange is open.
ghost use Rattle.std.specs.Prelude.{◌≡◌};
ghost use Rattle.proxy_engine.specs.Activities.{link_place_of_activity, has_exchange};

use crate::endpoints::numbers::LinkPlace;

/// An exchange of a connection is open, or none is.
#[derive(Clone, Copy)]
pub(crate) enum Activity {
    /// No exchange is open: the next request may come.
    Free,
    /// The request went forward on the link at this place.
    Forwarded(LinkPlace),
    /// The request waits for the answer to another.
    Waiting,
}

impl Activity {
    /// The place of the link on which the request went forward.
    pub(crate) fn link(self) -> Option<LinkPlace>
        ensures { result ≡ link_place_of_activity self }
    {
        match self {
            Activity::Free => None,
            Activity::Forwarded(place) => Some(place),
            Activity::Waiting => None,
        }
    }

    /// Whether an exchange is open.
    pub(crate) fn has_exchange(self) -> bool
        ensures { result ≡ has_exchange self }
    {
        match self {
            Activity::Free => false,
            Activity::Forwarded(_) | Activity::Waiting => true,
        }
    }
}
