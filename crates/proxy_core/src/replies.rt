//! Replies: what an origin answered, as later rules see it, and the texts that clients are sent.

pub(crate) mod answer_parts;
pub(crate) mod origin_answer;
pub(crate) mod pending;
pub(crate) mod reply_text;
pub(crate) mod stored_reply;
