//! What is kept of a head that may be refused: its request line, as it came.
ghost use Rattle.std.specs.Prelude.{◌≡◌, ◌⊎◌, ℕ, List, [], ◌++◌, codes, false, true, OnOk};
ghost use Rattle.proxy_log.specs.Asked.{asked_words, asked_words_of_head};
ghost use Rattle.proxy_log.specs.KeptLine.{RequestLineOfHeadIsKept, RequestLineIsEmptyAndOver};

use crate::logged_request::LoggedRequest;
use crate::text_lines::{is_empty_line, split_at_first_lf};
use std::alloc::{AllocError, Global};

/// A head has at most so many bytes.
const MOST_LINE_BYTES: usize = 32_768;

/// The first line of a head that isn't empty, with its LF, as far as it has come. Nothing is kept of a line that is
/// longer than a head may be, or for which there was no memory.
#[derive(Drop)]
pub struct RequestLine {
    text: Vec<u8>,
    /// Nothing of what comes next belongs to it.
    is_over: bool,
}

impl RequestLine {
    /// Nothing has come.
    pub fn new(alloc: Global) -> RequestLine
        ensures { RequestLineOfHeadIsKept [] result }
    {
        RequestLine {
            text: Vec::new(alloc),
            is_over: false,
        }
    }

    /// A next head begins.
    pub fn clear(&mut self)
        ensures begins { RequestLineOfHeadIsKept [] self.new }
        ensures empty { self.new.text.items ≡ [] }
    {
        self.text.clear();
        self.is_over = false;
    }

    /// Takes the next piece of what comes.
    pub fn take(&mut self, piece: &[u8])
        ensures kept { (head : List ℕ) → RequestLineOfHeadIsKept head self.old
            → RequestLineOfHeadIsKept (head ++ piece.now) self.new
            ⊎ RequestLineIsEmptyAndOver self.new }
        ensures over { self.old.is_over ≡ true → self.new ≡ self.old }
    {
        if !self.is_over && self.keep(piece).is_err() {
            self.text.clear();
            self.is_over = true;
        }
    }

    /// Adds to the line, unless it is too long.
    fn push(&mut self, bytes: &[u8]) -> Result<(), AllocError>
        ensures ok { OnOk result (self.new.text.items ≡ self.old.text.items ++ bytes.now) }
        ensures over { self.new.is_over ≡ self.old.is_over }
    {
        if bytes.len() > MOST_LINE_BYTES.saturating_sub(self.text.len()) {
            return Err(AllocError);
        }
        self.text.extend_from_slice(bytes)
    }

    /// Adds the LF that ends the line.
    fn push_line_feed(&mut self) -> Result<(), AllocError>
        ensures ok { OnOk result (self.new.text.items ≡ self.old.text.items ++ codes "\n") }
        ensures over { self.new.is_over ≡ self.old.is_over }
    {
        self.text.push(b'\n')?;
        Ok(())
    }

    /// Keeps of a piece what belongs to the line.
    fn keep(&mut self, piece: &[u8]) -> Result<(), AllocError>
        requires { self.old.is_over ≡ false }
        ensures { OnOk result ((head : List ℕ) → RequestLineOfHeadIsKept head self.old
            → RequestLineOfHeadIsKept (head ++ piece.now) self.new) }
    {
        let mut rest = piece;
        while let Some((line, behind)) = split_at_first_lf(rest) {
            self.push(line)?;
            if !is_empty_line(self.text.as_slice()) {
                self.is_over = true;
                return self.push_line_feed();
            }
            self.text.clear();
            rest = behind;
        }
        self.push(rest)
    }

    /// What it asks for.
    pub fn asked(&self) -> LoggedRequest<'_>
        ensures kept { (head : List ℕ) → RequestLineOfHeadIsKept head self.now → asked_words result
            ≡ asked_words_of_head head }
        ensures text { asked_words result ≡ asked_words_of_head self.now.text.items }
    {
        LoggedRequest::of_head(self.text.as_slice())
    }
}
