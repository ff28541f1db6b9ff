//! Heads of messages, as the clients and origins of the trial read them.

use crate::text::number_of;
use bstr::ByteSlice;

/// The head of a message with its start line, and its content, where an empty line stands.
pub fn head_and_content(message: &[u8]) -> Option<(&[u8], &[u8])> {
    message.split_once_str(b"\r\n\r\n")
}

/// The value of the last line of this name, which is written in its own case.
pub fn last_value<'a>(head: &'a [u8], name: &[u8]) -> Option<&'a [u8]> {
    let mut value = None;
    for line in head.split_str(b"\r\n") {
        if let Some((found, rest)) = line.split_once_str(b": ") {
            if found == name {
                value = Some(rest);
            }
        }
    }
    value
}

/// The connection and the ordinal that the field X-Id of a head names.
pub fn id_of(head: &[u8]) -> Option<(u64, u64)> {
    let (connection, ordinal) = last_value(head, b"X-Id")?.split_once_str(b".")?;
    Some((number_of(connection)?, number_of(ordinal)?))
}

/// The same of a request that goes forward.
pub fn id_of_request(request: &[u8]) -> Option<(u64, u64)> {
    match head_and_content(request) {
        Some((head, _)) => id_of(head),
        None => None,
    }
}
