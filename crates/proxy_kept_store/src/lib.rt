//! What a server may begin with: a store that was kept in a file, read within the bounds of its table.
#![tactic(auto)]

mod kept_store;

pub use crate::kept_store::{a_server_may_begin_empty, read_kept_store};
