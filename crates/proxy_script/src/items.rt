//! What a script says.

use crate::Happening;

/// An item of a script. Its bytes are borrowed from the script.
#[derive(Clone, Copy)]
pub enum Item<'a> {
    /// The operator's table, which is the first item and no other.
    Config(&'a [u8]),
    /// The moment from here on, in seconds since 1970, below 253402300800.
    At(u64),
    /// Something happens at that moment.
    Happens(Happening<'a>),
}
