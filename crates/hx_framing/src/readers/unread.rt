//! Bytes that were fed and that no message has taken yet.
//!
//! Taking bytes away from the front is cheap: they are moved up only once as many were taken as are left. How far
//! they were searched for the end of a head or of a line is remembered, so that none is searched again for each piece.
ghost use Rattle.std.specs.Prelude.{◌≡◌, ◌≤◌, ◌++◌, [], IsOk, OnOk, IfOk, OnErr, length, drop};

use crate::contents::content::{Content, ContentProgress};
use crate::heads::head_end::{HeadSearch, HeadSearchResult, search_head_end};
use crate::limits::MOST_HEAD_BYTES;
use crate::slices::{bytes_from_index, first_bytes};
use std::alloc::{AllocError, Global};
use std::marker::Model;

/// A queue of bytes. Contracts see those that are left, and for how many more there is room.
#[derive(Drop)]
pub(crate) struct Unread {
    bytes: Vec<u8>,
    taken: usize,
    /// Of the bytes that are left, as far as a head may reach.
    search: HeadSearch,
    /// So many of the bytes that are left hold no LF.
    line: usize,
}

impl Model for Unread {
    ghost use Rattle.std.specs.Prelude.{◌≡◌, ◌≤◌, ◌-◌, ◌+◌, true, length, drop, take, vec_len, vec_capacity};
    ghost use Rattle.hx_framing.specs.ChunkGrammar.{has_no_lf};
    ghost use Rattle.hx_framing.specs.HeadEnd.{most_head_bytes};
    ghost use Rattle.hx_framing.specs.Queue.{ByteQueue};
    ghost use Rattle.hx_framing.specs.Searching.{NoHeadEndsBeforeSearch};

    ghost Value = { ByteQueue };

    ghost view = { λ u. record { items = drop u.taken u.bytes.items; spare = vec_capacity u.bytes - vec_len u.bytes } };

    ghost invariant = { λ u. (u.taken + u.taken ≤ vec_len u.bytes)
        × NoHeadEndsBeforeSearch (take most_head_bytes (drop u.taken u.bytes.items)) u.search
        × (u.line ≤ length (drop u.taken u.bytes.items))
        × (has_no_lf (take u.line (drop u.taken u.bytes.items)) ≡ true) };
}

/// A search that has looked at nothing.
const UNSEARCHED: HeadSearch = HeadSearch {
    at: 0,
    is_past_empty_lines: false,
};

impl Unread {
    ghost use Rattle.std.specs.Prelude.{true, take};
    ghost use Rattle.hx_framing.specs.ChunkGrammar.{has_no_lf};
    ghost use Rattle.hx_framing.specs.ContentReading.{ContentIsReadFurther};
    ghost use Rattle.hx_framing.specs.HeadEnd.{head_length, most_head_bytes};

    pub(crate) fn new(alloc: Global) -> Unread
        ensures { result.items ≡ [] }
    {
        Unread {
            bytes: Vec::new(alloc),
            taken: 0,
            search: UNSEARCHED,
            line: 0,
        }
    }

    pub(crate) fn as_slice(&self) -> &[u8]
        ensures { result.now ≡ self.now.items }
    {
        bytes_from_index(self.bytes.as_slice(), self.taken)
    }

    pub(crate) fn len(&self) -> usize
        ensures { result ≡ length self.now.items }
    {
        self.bytes.len() - self.taken
    }

    /// Makes room for n more bytes. An `Err` changes nothing.
    pub(crate) fn reserve(&mut self, n: usize) -> Result<(), AllocError>
        ensures items { self.new.items ≡ self.old.items }
        ensures ok { OnOk result (n ≤ self.new.spare) }
        ensures err { OnErr result (self.new ≡ self.old) }
    {
        self.bytes.reserve(n)
    }

    /// Gives back the room of what was taken, where nothing is left.
    pub(crate) fn release_room(&mut self, alloc: Global)
        ensures items { self.new.items ≡ self.old.items }
        ensures released { self.old.items ≡ [] → self.new.spare ≡ 0 }
    {
        if self.bytes.len() == 0 {
            self.bytes = Vec::new(alloc);
        }
    }

    /// Puts a piece at the end. An `Err` changes nothing.
    pub(crate) fn extend(&mut self, piece: &[u8]) -> Result<(), AllocError>
        ensures ok { OnOk result (self.new.items ≡ self.old.items ++ piece.now) }
        ensures reserved { length piece.now ≤ self.old.spare → IsOk result }
        ensures err { OnErr result (self.new ≡ self.old) }
    {
        self.bytes.reserve(piece.len())?;
        match self.bytes.extend_from_slice(piece) {
            Ok(()) => Ok(()),
            Err(_) => unreachable!(),
        }
    }

    /// Takes the first n bytes away. No memory is taken, and room that was made stays. Where there are none to take, it
    /// stays known how far the bytes were searched.
    pub(crate) fn take_front(&mut self, n: usize)
        requires { n ≤ length self.old.items }
        ensures items { self.new.items ≡ drop n self.old.items }
        ensures room { self.old.spare ≤ self.new.spare }
    {
        if n == 0 {
            return;
        }
        self.search = UNSEARCHED;
        self.line = 0;
        self.taken += n;
        let left = self.bytes.len() - self.taken;
        if left <= self.taken {
            self.bytes.copy_within(self.taken.., 0);
            self.bytes.truncate(left);
            self.taken = 0;
        }
    }

    /// How many bytes a head takes, if it ends within the limit. A byte that was searched isn't searched again.
    pub(crate) fn head_length(&mut self) -> Option<usize>
        ensures size { result ≡ head_length (take most_head_bytes self.old.items) }
        ensures same { self.new ≡ self.old }
    {
        let front = first_bytes(
            bytes_from_index(self.bytes.as_slice(), self.taken),
            MOST_HEAD_BYTES,
        );
        match search_head_end(front, self.search) {
            HeadSearchResult::Ended(n) => Some(n),
            HeadSearchResult::Open(search) => {
                self.search = search;
                None
            }
        }
    }

    /// How many bytes at the front are known to hold no LF.
    pub(crate) fn searched(&self) -> usize
        ensures within { result ≤ length self.now.items }
        ensures none { has_no_lf (take result self.now.items) ≡ true }
    {
        self.line
    }

    /// Goes on with a content, as its `read` does, and takes away what it took of the bytes. An `Err` changes nothing.
    pub(crate) fn read_content(
        &mut self,
        alloc: Global,
        content: &mut Content,
        ended: bool,
        closed: bool,
    ) -> Result<ContentProgress, AllocError>
        ensures reads { IfOk result
            (λ progress. ContentIsReadFurther ended closed self.old.items content.old progress content.new
            self.new.items) }
        ensures room { self.old.spare ≤ self.new.spare }
        ensures err { OnErr result (self.new ≡ self.old) }
        ensures err_content { OnErr result (content.new ≡ content.old) }
    {
        match content.read(alloc, ended, closed, self.as_slice(), self.searched())? {
            ContentProgress::Incomplete(n) => {
                self.take_front(n);
                self.note_no_line_feed();
                Ok(ContentProgress::Incomplete(n))
            }
            ContentProgress::Faulty(fault) => Ok(ContentProgress::Faulty(fault)),
            ContentProgress::Whole(content, n) => {
                self.take_front(n);
                Ok(ContentProgress::Whole(content, n))
            }
        }
    }

    /// Remembers that the bytes hold no LF.
    pub(crate) fn note_no_line_feed(&mut self)
        requires { has_no_lf self.old.items ≡ true }
        ensures { self.new ≡ self.old }
    {
        self.line = self.bytes.len() - self.taken;
    }
}
