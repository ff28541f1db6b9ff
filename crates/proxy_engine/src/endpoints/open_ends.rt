//! The proxy's ends together.

use crate::endpoints::connections::Connections;
use crate::endpoints::links::Links;

/// What the acts work on, beside the core.
#[derive(Drop)]
pub(crate) struct Ends {
    pub(crate) connections: Connections,
    pub(crate) links: Links,
    /// The number of the link at the first place.
    pub(crate) first_link: u64,
}
