//! The clients of a run.

use super::log::{Log, Occurred};
use super::requests::Asked;
use std::alloc::{AllocError, Global};

/// Where the end of this number, counted from 1, stands in a list.
pub fn index_of_number(number: u64) -> usize {
    match number.checked_sub(1) {
        Some(before) => before as usize,
        None => usize::MAX,
    }
}

/// What is known of a client, and of its connection.
pub struct Client<'a> {
    pub asked: Vec<&'a Asked>,
    /// How many of these have come whole.
    pub whole: u64,
    pub replies: usize,
    pub link: Option<u64>,
    /// The exchange of the request that has no reply.
    pub exchange: Option<usize>,
    pub is_accepted: bool,
    pub is_over: bool,
    /// From which of the requests on its replies close it, where it is to end.
    pub last: Option<usize>,
}

// By hand, so that a scope that ends is one call to the prover and not the drop of each part.
impl Drop for Client<'_> {
    fn drop(self) {
        let Client {
            asked: _,
            whole: _,
            replies: _,
            link: _,
            exchange: _,
            is_accepted: _,
            is_over: _,
            last: _,
        } = self;
    }
}

impl Client<'_> {
    /// It is to end: the first request that wasn't begun yet is the last one.
    pub fn retire(&mut self) {
        if self.last.is_none() {
            let has_open = self.link.is_some() || (self.replies as u64) < self.whole;
            self.last = Some(self.replies.saturating_add(usize::from(has_open)));
        }
    }

    /// The request that has come whole, and has neither a reply nor a link.
    pub fn request_without_reply(&self) -> Option<Asked> {
        let is_open = self.is_accepted && !self.is_over && self.link.is_none();
        if is_open && (self.replies as u64) < self.whole {
            return Some(**self.asked.get(self.replies)?);
        }
        None
    }
}

/// The clients of a log, which have sent nothing yet.
pub fn clients_of<'a>(alloc: Global, log: &Log) -> Result<Vec<Client<'a>>, AllocError> {
    let mut clients = Vec::new(alloc);
    for step in &log.steps {
        if let Occurred::Accepted(_) = step.occurred {
            let client = Client {
                asked: Vec::new(alloc),
                whole: 0,
                replies: 0,
                link: None,
                exchange: None,
                is_accepted: false,
                is_over: false,
                last: None,
            };
            clients.push(client).map_err(AllocError::from)?;
        }
    }
    Ok(clients)
}
