//! Which answers may be held, by what replies tell of them.
//!
//! What is stored takes the place of the answers that the same request could be sent, a 304 freshens the one about
//! which it was asked, and an unsafe request that went well takes away all for its target. What was evicted isn't seen,
//! so which answer a request chose is known just where one alone could be sent to it.

use super::replies::{Source, has_lifetime, is_freshened, names_the_language};
use super::requests::Asked;
use std::alloc::{AllocError, Global};

/// An answer that may be held.
#[derive(Clone, Copy)]
struct StoredAnswer {
    /// The request that it answered, or that freshened it last.
    asked: Asked,
    /// Which it is, where that is known. A 304 leaves it.
    number: Option<u64>,
    /// Whether its Vary names the language.
    is_for_one_language: bool,
    has_lifetime: Option<bool>,
}

impl StoredAnswer {
    fn may_be_sent_to(&self, asked: &Asked) -> bool {
        self.asked.has_target_of(asked)
            && (!self.is_for_one_language || self.asked.language == asked.language)
    }
}

/// What is known of the answer that is chosen for a request, if one is held.
#[derive(Clone, Copy, Default)]
pub struct Chosen {
    number: Option<u64>,
    /// Whether it had a lifetime above 0.
    pub has_lifetime: Option<bool>,
}

impl Chosen {
    /// Whether both are one answer, where that is known.
    pub fn is_same(self, other: Chosen) -> Option<bool> {
        match (self.number, other.number) {
            (Some(number), Some(other)) => Some(number == other),
            _ => None,
        }
    }
}

/// The answers that may be held.
pub struct StoredAnswers {
    answers: Vec<StoredAnswer>,
    last: u64,
}

// By hand, so that a scope that ends is one call to the prover and not the drop of each part.
impl Drop for StoredAnswers {
    fn drop(self) {
        let StoredAnswers {
            answers: _,
            last: _,
        } = self;
    }
}

impl StoredAnswers {
    pub fn new(alloc: Global) -> Self {
        StoredAnswers {
            answers: Vec::new(alloc),
            last: 0,
        }
    }

    /// The answer that is chosen for a request, if one is held.
    pub fn chosen(&self, asked: &Asked) -> Chosen {
        let mut chosen = None;
        for answer in &self.answers {
            if answer.may_be_sent_to(asked) {
                if chosen.is_some() {
                    return Chosen::default();
                }
                chosen = Some(Chosen {
                    number: answer.number,
                    has_lifetime: answer.has_lifetime,
                });
            }
        }
        chosen.unwrap_or_default()
    }

    fn push(&mut self, asked: Asked, number: Option<u64>, head: &[u8]) -> Result<(), AllocError> {
        let answer = StoredAnswer {
            asked,
            number,
            is_for_one_language: names_the_language(head),
            has_lifetime: has_lifetime(head),
        };
        Ok(self.answers.push(answer).map_err(AllocError::from)?)
    }

    /// What a reply to a request tells, which went forward for this answer, if for one.
    pub fn note(
        &mut self,
        asked: Asked,
        about: Chosen,
        head: &[u8],
        source: Source,
    ) -> Result<(), AllocError> {
        if matches!(source, Source::Stored) {
            return self.store(asked, head);
        }
        if is_freshened(head, source) {
            return self.freshen(asked, about, head);
        }
        Ok(())
    }

    /// An answer with this head was stored.
    fn store(&mut self, asked: Asked, head: &[u8]) -> Result<(), AllocError> {
        self.answers.retain(|answer| !answer.may_be_sent_to(&asked));
        self.last = self.last.saturating_add(1);
        self.push(asked, Some(self.last), head)
    }

    /// The answer that this request asked about was freshened, and has this head now.
    fn freshen(&mut self, asked: Asked, about: Chosen, head: &[u8]) -> Result<(), AllocError> {
        if about.number.is_some() {
            self.answers.retain(|answer| answer.number != about.number);
        }
        self.push(asked, about.number, head)
    }

    /// All for the target of this request went.
    pub fn forget_target(&mut self, asked: &Asked) {
        self.answers
            .retain(|answer| !answer.asked.has_target_of(asked));
    }
}
