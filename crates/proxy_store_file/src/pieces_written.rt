//! Bytes to a writer, by which a hasher is fed.
//!
//! Our own loop over `write`: after an error of `write_all` nobody knows what went out.
ghost use Rattle.std.specs.Prelude.{◌≡◌, ℕ, take, OnOk, OnErr};
ghost use Rattle.std.specs.Io.KnownBytes.{Appends};
ghost use Rattle.proxy_store_file.specs.Texts.{text_spelling};
ghost use Rattle.proxy_store_file.specs.Writing.{WriterTookBytes, WriterTookAFront};

use crate::texts::number_text;
use std::hash::{DefaultHasher, Hasher};
use std::io::{ErrorKind, Write};

/// The writer failed, or took no bytes.
#[derive(Clone, Copy, PartialEq, Eq)]
pub(crate) struct WriteFailed;

/// Writes all of the bytes, or some first ones of them.
pub(crate) fn put<W: Write>(writer: &mut W, bytes: &[u8]) -> Result<(), WriteFailed>
    ensures ok { OnOk result (Appends (W.contents writer.old) (W.contents writer.new) bytes.now) }
    ensures err { OnErr result ((k : ℕ) × Appends (W.contents writer.old) (W.contents writer.new) (take k bytes.now)) }
{
    let mut at = 0usize;
    for _turn in 0..u64::MAX {
        if at >= bytes.len() {
            return Ok(());
        }
        match writer.write(&bytes[at..]) {
            Ok(0) => return Err(WriteFailed),
            Ok(n) => at += n,
            Err(e) if e.kind() == ErrorKind::Interrupted => {}
            Err(_) => return Err(WriteFailed),
        }
    }
    Err(WriteFailed)
}

/// The same, and feeds the hasher.
pub(crate) fn put_and_hash<W: Write>(
    writer: &mut W,
    hasher: &mut DefaultHasher,
    bytes: &[u8],
) -> Result<(), WriteFailed>
    ensures ok { OnOk result (WriterTookBytes (W.contents writer.old) (W.contents writer.new) hasher.old hasher.new
        bytes.now) }
    ensures err { OnErr result (WriterTookAFront (W.contents writer.old) (W.contents writer.new) bytes.now) }
{
    hasher.write(bytes);
    put(writer, bytes)
}

/// Writes a text behind its length.
pub(crate) fn put_text<W: Write>(
    writer: &mut W,
    hasher: &mut DefaultHasher,
    text: &[u8],
) -> Result<(), WriteFailed>
    ensures ok { OnOk result (WriterTookBytes (W.contents writer.old) (W.contents writer.new) hasher.old hasher.new
        (text_spelling text.now)) }
    ensures err { OnErr result (WriterTookAFront (W.contents writer.old) (W.contents writer.new)
        (text_spelling text.now)) }
{
    match put_and_hash(writer, hasher, &number_text(text.len() as u64)) {
        Ok(()) => put_and_hash(writer, hasher, text),
        Err(failed) => Err(failed),
    }
}
