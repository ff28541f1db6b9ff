//! Random choices, the same in each run.
ghost use Rattle.std.specs.Prelude.{◌≤◌};

use rand_core::{Rng, SeedableRng};
use rand_xoshiro::Xoshiro256PlusPlus;

/// A generator of words that begins anywhere.
#[derive(Drop)]
pub struct Dice {
    words: Xoshiro256PlusPlus,
}

impl Dice {
    pub fn new(beginning: u64) -> Self {
        Dice {
            words: Xoshiro256PlusPlus::seed_from_u64(beginning),
        }
    }

    /// A number below `n`, and 0 where there is none.
    pub fn below(&mut self, n: usize) -> usize
        ensures { result ≤ n }
    {
        if n == 0 {
            return 0;
        }
        (self.words.next_u64() % n as u64) as usize
    }

    /// True once in `n` throws.
    pub fn once_in(&mut self, n: usize) -> bool {
        self.below(n) == 0
    }

    /// One of these texts.
    pub fn pick(&mut self, texts: &[&'static str]) -> &'static str {
        let i = self.below(texts.len());
        texts.get(i).copied().unwrap_or("")
    }
}
