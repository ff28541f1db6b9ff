//! Messages of HTTP/1.1 connections: readers for streams that come in pieces, and writers (RFC 9112).
//!
//! A reader is fed pieces and asked for what is due. What it answers depends on the bytes alone, never on
//! how they were cut: `specs/RequestStream.antt` and `specs/ResponseStream.antt` say what a stream spells.
//! Nothing here knows what a message means.
//!
//! To trust what is proved, read these definitions of `specs/`, with `httparse`'s grammar of heads and `hx_fields`:
//!
//! | File | It says | RFC |
//! |---|---|---|
//! | `RequestStream` | which requests a stream spells, | 9112, 2 to 7 and 9.3 |
//! | | and the one answer that is due behind them | |
//! | `ResponseStream` | the same of a response, and the end behind it | 9112, 4, 6 and 9.3 |
//! | `Progress` | a stream so far, what was given of it, and which answers out of memory may hide | |
//! | `Reading`, `Body` | what may stand at the front of bytes, and behind a head | 9112, 8 |
//! | `RequestReading` | a head, what it says of its content, its content: | 9112, 2 and 6 |
//! | | what stands at the front of requests | |
//! | `ResponseReading` | the same of a response, behind the interim ones | 9112, 4 and 6; 9110, 15.2 |
//! | `HeadEnd` | where a head ends, and its limits in bytes and lines | 9112, 2.2 |
//! | `Head` | which bytes are a request's head, what it gives, its fault | 9112, 2 to 5 |
//! | `StatusHead` | the same of a response's head | 9112, 2, 4 and 5 |
//! | `Version` | which start lines name another version | 9112, 2.3 |
//! | `Lengths` | how long the content is by the fields, each fault, the continue | 9112, 6; 9110, 10.1.1 |
//! | `ContentLength` | which length Content-Length lines tell | 9110, 8.6; 9112, 6.3 |
//! | `Contents` | the content by its framing (`content_by_framing`) | 9112, 6 |
//! | `Chunks`, `ChunkDecoder` | content in chunks, a byte at a time, each fault at its byte | 9112, 7.1 |
//! | `SizeLine` | which lines are sizes of chunks, and their limits | 9112, 7.1 and 7.1.1 |
//! | `Fault` | the faults' numbers | |
//! | `ReaderState` | what `kept` counts, and what is unfinished (`KeepsOnlyUnfinished`), | |
//! | | by `IsRestOfUnfinishedContent` of `Contents` and `IsUnfinishedLine` of `ChunkTokens` | |
//! | `RequestState`, `ResponseState` | what `weight` counts, and what a reader's contracts say of its kind | |
//! | | (`request_kind`, `response_reader_kind`), in the words of `ReaderKind` | |
//! | `Text` | the bytes of messages that are sent | 9112, 3 to 7 |
//!
//! The laws' own words are in `ChunkGrammar` (chunks as trees), `ChunkFaults`, `HeadLines`,
//! `GivenFields`, `FaultOrder`, `Written`, `WrittenResponse`, `Examples`, `LengthExamples` and
//! `ReadingExamples`. The rest serves the proofs alone and needs no trust: `RequestHeadProgress`,
//! `ResponseHeadProgress`, `ReaderSteps`, `ContentReading`, `Decoding`, `PlainContent`,
//! `Queue`, `Searching`, what else is in `ChunkTokens`; and so does `ReaderRepresentsStream`, which
//! may be any relation that holds of a new reader and that each call keeps.
#![tactic(auto)]

mod contents;
mod frame_fault;
mod heads;
pub mod laws;
mod lengths;
mod limits;
mod messages;
mod readers;
mod slices;
mod writing;

pub use crate::frame_fault::FrameFault;
pub use crate::messages::{Next, Request, Response};
pub use crate::readers::message_head::MessageHead;
pub use crate::readers::message_reader::{MessageReader, RequestReader, ResponseReader};
pub use crate::writing::{
    AddedLine, LinesAfterStatusLine, write_continue, write_request, write_response,
    write_response_with_added_lines,
};
