//! The caches' libraries above messages: copies that the proxy doesn't make, the store by the order of its calls, and
//! the operator's table.

mod both_shelves;
mod copies;
mod entries;
mod shelves;
mod tables;
