//! Lines of a log: what a client asked for, what it was told, and the text of both.
//!
//! Both come with the reply as data, and nothing is read off its bytes. Of a request that was refused, or isn't whole,
//! a line has what its request line says. The text of a line is in `specs/Line.antt`. Nothing here writes a file.
#![tactic(auto)]

mod kept_line;
pub mod laws;
mod line;
mod logged_request;
mod pending_lines;
mod request_line;
mod seconds;
mod seen;
mod text_lines;
pub mod worked_cases;

pub use crate::kept_line::RequestLine;
pub use crate::line::{Line, LoggedReason};
pub use crate::logged_request::{LoggedRequest, LoggedTarget};
pub use crate::pending_lines::Lines;
pub use crate::seconds::push_seconds;
pub use crate::seen::ReplyObservation;
