//! Room that readers make for a piece, and what they keep. What they give of a stream, and that its memory is found, is
//! a matter of cases.

use hx_framing::{Next, RequestReader, ResponseReader};
use std::alloc::{AllocError, Global};
use std::test::Fail;

const REQUEST: &[u8] = b"GET /a HTTP/1.1\r\nHost: h\r\n\r\n";

const RESPONSE: &[u8] = b"HTTP/1.1 200 OK\r\nContent-Length: 2\r\n\r\nhi";

#[test]
fn room_for_requests_holds_a_piece(rt: HostRuntime) -> Result<(), Fail> {
    let mut reader = RequestReader::new(rt.alloc(), 1000);
    reader.feed(REQUEST)?;
    reader.reserve(REQUEST.len())?;
    // No memory is taken here, so that an `Err` is a fault of the reader.
    assert!(&rt; reader.feed(REQUEST).is_ok());
    Ok(())
}

#[test]
fn room_for_responses_holds_a_piece(rt: HostRuntime) -> Result<(), Fail> {
    let mut reader = ResponseReader::new(rt.alloc(), 1000, false);
    let (front, back) = RESPONSE.split_at(20);
    reader.feed(front)?;
    reader.reserve(back.len())?;
    // No memory is taken here, so that an `Err` is a fault of the reader.
    assert!(&rt; reader.feed(back).is_ok());
    Ok(())
}

/// What a reader keeps behind a piece, where it answers that more has to come.
fn kept_behind(
    alloc: Global,
    reader: &mut RequestReader,
    piece: &[u8],
) -> Result<Option<usize>, AllocError> {
    reader.feed(piece)?;
    match reader.next(alloc)? {
        Next::More => Ok(Some(reader.kept())),
        _ => Ok(None),
    }
}

#[test]
fn only_what_is_not_whole_is_kept(rt: HostRuntime) -> Result<(), Fail> {
    let alloc = rt.alloc();
    let mut reader = RequestReader::new(alloc, 1000);
    let head = kept_behind(alloc, &mut reader, b"POST /a HTTP/1.1\r\nHost: h\r\n")?;
    assert!(&rt; head == Some(27));
    let size = kept_behind(alloc, &mut reader, b"Transfer-Encoding: chunked\r\n\r\n1")?;
    assert!(&rt; size == Some(1));
    let data = kept_behind(alloc, &mut reader, b"0\r\nsixteen bytes as")?;
    assert!(&rt; data == Some(0));
    let end = kept_behind(alloc, &mut reader, b"\r")?;
    assert!(&rt; end == Some(1));
    let trailer = kept_behind(alloc, &mut reader, b"\n0\r\nT: 1")?;
    assert!(&rt; trailer == Some(4));
    let whole = kept_behind(alloc, &mut reader, b"\r\n\r\n")?;
    assert!(&rt; whole.is_none() && reader.kept() == 0);
    Ok(())
}

#[test]
fn content_of_an_announced_length_is_not_kept(rt: HostRuntime) -> Result<(), Fail> {
    let mut reader = ResponseReader::new(rt.alloc(), 1000, false);
    reader.feed(b"HTTP/1.1 200 OK\r\nContent-Length: 8\r\n\r\nhalf")?;
    let next = reader.next(rt.alloc())?;
    assert!(&rt; matches!(&next, Next::More) && reader.kept() == 0);
    Ok(())
}
