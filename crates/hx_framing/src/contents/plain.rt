//! A content that comes as it is, in no coding.
ghost use Rattle.std.specs.Prelude.{◌≡◌, ◌≤◌, Bool, IfOk, OnOk, OnErr, length};

use crate::contents::content::ContentProgress;
use crate::frame_fault::FrameFault;
use hx_fields::Bytes;
use std::alloc::{AllocError, Global};
use std::marker::Model;
use std::mem;

/// The content so far. Where it is full, room is made for as much again, but for no more than may come.
#[derive(Drop)]
pub struct UnchunkedContentBuffer {
    /// So many bytes may still come.
    left: u64,
    content: Vec<u8>,
}

impl Model for UnchunkedContentBuffer {
    ghost use Rattle.hx_framing.specs.PlainContent.{PlainContent};

    ghost Value = { PlainContent };

    ghost view = { λ p. record { left = p.left; content = p.content.items } };
}

impl UnchunkedContentBuffer {
    ghost use Rattle.hx_framing.specs.PlainContent.{plain_content_not_begun, plain_content_after_bytes};
    ghost use Rattle.hx_framing.specs.declared.contents.content.Content.TheVariants as content;
    ghost use Rattle.hx_framing.specs.Contents.{ContentAdvances};

    /// A content of which nothing has come.
    pub(crate) fn start(alloc: Global, left: u64) -> UnchunkedContentBuffer
        ensures { result ≡ plain_content_not_begun left }
    {
        UnchunkedContentBuffer {
            left,
            content: Vec::new(alloc),
        }
    }

    /// Takes a run of its bytes. An `Err` changes nothing.
    fn extend(&mut self, run: &[u8]) -> Result<(), AllocError>
        requires { length run.now ≤ self.old.left }
        ensures ok { OnOk result (self.new ≡ plain_content_after_bytes self.old run.now) }
        ensures err { OnErr result (self.new ≡ self.old) }
    {
        if self.content.capacity() - self.content.len() < run.len() {
            let again = self.content.len().min(self.left as usize);
            self.content.reserve_exact(run.len().max(again))?;
        }
        self.content.extend_from_slice(run)?;
        self.left -= run.len() as u64;
        Ok(())
    }

    /// The content so far, which its copies share where it is large.
    fn take_content(&mut self, alloc: Global) -> Bytes
        ensures { result ≡ self.old.content }
    {
        Bytes::shared_from_vec(alloc, mem::replace(&mut self.content, Vec::new(alloc)))
    }

    /// Goes on with a content of a length that was announced. An `Err` changes nothing.
    pub(crate) fn add_announced_bytes(
        &mut self,
        alloc: Global,
        bytes: &[u8],
    ) -> Result<ContentProgress, AllocError>
        ensures ok { IfOk result (λ progress. (ended : Bool)
            → ContentAdvances ended bytes.now (content.Announced self.old) progress (content.Announced self.new)) }
        ensures err { OnErr result (self.new ≡ self.old) }
    {
        let n = self.left.min(bytes.len() as u64) as usize;
        let (run, _) = bytes.split_at(n);
        self.extend(run)?;
        if self.left > 0 {
            Ok(ContentProgress::Incomplete(n))
        } else {
            Ok(ContentProgress::Whole(Some(self.take_content(alloc)), n))
        }
    }

    /// Goes on with a content until the stream's end; `ended` says that this is it. An `Err` changes nothing.
    pub(crate) fn take_until_close(
        &mut self,
        alloc: Global,
        ended: bool,
        bytes: &[u8],
    ) -> Result<ContentProgress, AllocError>
        ensures ok { IfOk result (λ taken.
            ContentAdvances ended bytes.now (content.UntilClose self.old) taken (content.UntilClose self.new)) }
        ensures err { OnErr result (self.new ≡ self.old) }
    {
        if bytes.len() as u64 > self.left {
            return Ok(ContentProgress::Faulty(FrameFault::TooLarge));
        }
        self.extend(bytes)?;
        if ended {
            Ok(ContentProgress::Whole(Some(self.take_content(alloc)), bytes.len()))
        } else {
            Ok(ContentProgress::Incomplete(bytes.len()))
        }
    }
}
