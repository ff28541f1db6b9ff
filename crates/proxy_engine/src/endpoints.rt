//! Ends that are open: connections of clients and links to origins, with their readers and marks.

pub(crate) mod activities;
pub(crate) mod boxed;
pub(crate) mod connections;
pub(crate) mod endpoint;
pub(crate) mod ends;
pub(crate) mod links;
pub(crate) mod lookahead;
pub(crate) mod marked_ends;
pub(crate) mod marks;
pub(crate) mod numbers;
pub(crate) mod open_ends;
pub(crate) mod peeked;
pub(crate) mod readers;
pub(crate) mod ready_list;
