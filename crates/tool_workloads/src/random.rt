//! Numbers of a seed.
use rand_core::utils::NextWord;
use rand_pcg::Pcg32;

/// Numbers that are the same for the same seed.
#[derive(Drop)]
pub struct Random {
    words: Pcg32,
}

impl Random {
    pub fn new(seed: u32) -> Random {
        Random {
            words: Pcg32::new(u64::from(seed), 4506),
        }
    }

    /// Any number.
    pub fn word(&mut self) -> u32 {
        self.words.next_word()
    }

    /// Any long number.
    pub fn long_word(&mut self) -> u64 {
        u64::from(self.word()) << 32 | u64::from(self.word())
    }

    /// A number below a bound, or 0.
    pub fn below(&mut self, bound: u32) -> u32 {
        self.word() % bound.max(1)
    }

    /// A number from one to another, both included.
    pub fn within(&mut self, least: u32, most: u32) -> u32 {
        let more = self.below(most.saturating_sub(least).saturating_add(1));
        least.saturating_add(more)
    }

    /// Whether one of so many equal cases comes.
    pub fn one_in(&mut self, cases: u32) -> bool {
        self.below(cases) == 0
    }
}

/// A count as a word.
pub fn count_of(count: usize) -> u32 {
    u32::try_from(count).unwrap_or(u32::MAX)
}
