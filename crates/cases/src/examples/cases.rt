//! The play of a case.
//!
//! Behind each thing that happens the script up to it is replayed: what that writes more than the replay of the script
//! before it has to be what is expected there, each effect in its order and no other. So an effect is looked for where
//! it stands, and one that nobody expects is a difference.

use super::case_lines::entries;
use super::form::{CaseFault, FormFault};
use super::pieces::byte_by_byte;
use super::played::{played, played_on_list};
use super::scenario::{Said, scenario};
use super::statements::Statement;
use crate::text::{Effect, first_shown, push_item};
use proxy_script::Item;
use std::alloc::{AllocError, Global};
use std::str;

/// A case that is being played.
pub struct Play {
    alloc: Global,
    /// All that has happened.
    script: Vec<u8>,
    /// All that the proxy has done, and what of it was expected.
    played_text: Vec<u8>,
    expected: Vec<u8>,
    /// The line of what happened last.
    line: usize,
}

// By hand, so that a scope that ends is one call to the prover and not the drop of each part.
impl Drop for Play {
    fn drop(self) {
        let Play {
            alloc: _,
            script: _,
            played_text: _,
            expected: _,
            line: _,
        } = self;
    }
}

impl Play {
    fn new(alloc: Global) -> Play {
        Play {
            alloc,
            script: Vec::new(alloc),
            played_text: Vec::new(alloc),
            expected: Vec::new(alloc),
            line: 1,
        }
    }

    /// Whether it spells the row of these bytes, but for the line where the replay stops.
    pub fn spells(&self, script: &[u8], effects: &[u8]) -> bool {
        match self.expected.as_slice().strip_prefix(effects) {
            Some(stop) if stop.is_empty() || stop.starts_with(b"stops ") => {
                self.script.as_slice() == script
            }
            _ => false,
        }
    }

    fn differs(&self, line: usize, expected: String, rest: &[u8]) -> CaseFault {
        match first_shown(self.alloc, rest) {
            Ok(got) => CaseFault::Differs(line, expected, got),
            Err(_) => CaseFault::OutOfMemory,
        }
    }

    /// What was done behind all that was expected.
    fn rest(&self) -> Result<&[u8], CaseFault> {
        let played_text = self.played_text.as_slice();
        match played_text.strip_prefix(self.expected.as_slice()) {
            Some(rest) => Ok(rest),
            None => {
                let expected = String::from_str(self.alloc, "what the replay before it wrote")?;
                Err(self.differs(self.line, expected, played_text))
            }
        }
    }

    /// Nothing more is expected behind what happened last.
    fn settle(&self) -> Result<(), CaseFault> {
        let rest = self.rest()?;
        if rest.is_empty() {
            return Ok(());
        }
        let nothing = String::from_str(self.alloc, "nothing")?;
        Err(self.differs(self.line, nothing, rest))
    }

    fn happen(&mut self, line: usize, item: Item<'_>) -> Result<(), CaseFault> {
        self.settle()?;
        push_item(&mut self.script, item)?;
        self.played_text = played(self.alloc, self.script.as_slice())?;
        self.line = line;
        Ok(())
    }

    fn expect(&mut self, line: usize, effect: Effect<'_>) -> Result<(), CaseFault> {
        let mut text = Vec::new(self.alloc);
        effect.push_text(&mut text)?;
        let rest = self.rest()?;
        if !rest.starts_with(text.as_slice()) {
            let mut expected = String::new(self.alloc);
            effect.push_shown(&mut expected)?;
            return Err(self.differs(line, expected, rest));
        }
        self.expected.extend_from_slice(text.as_slice())?;
        Ok(())
    }

    /// Plays a whole case.
    fn play(&mut self, said: &[Said<'_>]) -> Result<(), CaseFault> {
        for one in said {
            match one.statement {
                Statement::Plays(item) => self.happen(one.line, item)?,
                Statement::Expects(effect) => self.expect(one.line, effect)?,
            }
        }
        self.settle()
    }

    /// All that is expected comes in one text, and nothing else.
    fn expect_all(&mut self, said: &[Said<'_>], played_text: Vec<u8>) -> Result<(), CaseFault> {
        self.played_text = played_text;
        self.expected.clear();
        for one in said {
            if let Statement::Expects(effect) = one.statement {
                self.expect(one.line, effect)?;
            }
        }
        self.settle()
    }

    /// Plays what has happened once more with all bytes one at a time, and once over a shelf that is a list.
    fn play_again(&mut self, said: &[Said<'_>]) -> Result<(), CaseFault> {
        let pieces = byte_by_byte(self.alloc, self.script.as_slice())?;
        let cut = played(self.alloc, pieces.as_slice())?;
        self.expect_all(said, cut)?;
        let listed = played_on_list(self.alloc, self.script.as_slice())?;
        self.expect_all(said, listed)
    }
}

fn text_of(file: &[u8]) -> Result<&str, CaseFault> {
    match str::from_utf8(file) {
        Ok(text) => Ok(text),
        Err(fault) => {
            let before = file.get(..fault.valid_up_to()).unwrap_or(&[]);
            let lines = before.iter().filter(|byte| **byte == b'\n').count();
            Err(CaseFault::Form(lines.saturating_add(1), FormFault::NotUtf8))
        }
    }
}

/// The play of a file that is a case and holds.
pub fn judge(alloc: Global, file: &[u8]) -> Result<Play, CaseFault> {
    let entries = entries(alloc, text_of(file)?)?;
    let said = scenario(alloc, entries.as_slice())?;
    let mut play = Play::new(alloc);
    play.play(said.as_slice())?;
    play.play_again(said.as_slice())?;
    Ok(play)
}
