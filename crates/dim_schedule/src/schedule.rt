//! The order of the threads in a round, and how many moves each slice has at most.
ghost use Rattle.std.specs.Prelude.{◌≡◌, ◌≤◌, ◌<◌};
ghost use Rattle.std.specs.Option.{option_map};
ghost use Rattle.dim_schedule.specs.Drawn.{first_by, later, moves_by, word, words_of};

use rand_core::SeedableRng;
use rand_core::utils::NextWord;
use rand_pcg::Pcg32;

/// The words from which the rounds of a run are drawn. With seed 0 there are none.
#[derive(Drop)]
pub struct Schedule {
    pub words: Option<Pcg32>,
}

impl Schedule {
    /// The words of a seed, none of them taken.
    pub fn new(seed: u32) -> Schedule
        ensures { result.words ≡ words_of seed }
    {
        let words = if seed == 0 {
            None
        } else {
            Some(Pcg32::seed_from_u64(u64::from(seed)))
        };
        Schedule { words }
    }

    /// The thread at which the next round, of so many threads, begins.
    pub fn first(&mut self, threads: u32) -> u32
        requires { 1 ≤ threads }
        ensures first { result ≡ first_by threads self.old.words }
        ensures low { result < threads }
        ensures left { self.new.words ≡ later 1 self.old.words }
    {
        match self.word() {
            Some(word) => word % threads,
            None => 0,
        }
    }

    /// How many moves the next slice has at most, with this quantum.
    pub fn moves(&mut self, quantum: u32) -> u32
        requires { 1 ≤ quantum }
        ensures moves { result ≡ moves_by quantum self.old.words }
        ensures some { 1 ≤ result }
        ensures most { result ≤ quantum }
        ensures left { self.new.words ≡ later 1 self.old.words }
    {
        match self.word() {
            Some(word) => 1 + word % quantum,
            None => quantum,
        }
    }

    /// Takes the next word, if there are words.
    fn word(&mut self) -> Option<u32>
        ensures word { result ≡ option_map word self.old.words }
        ensures left { self.new.words ≡ later 1 self.old.words }
    {
        match &mut self.words {
            Some(words) => Some(words.next_word()),
            None => None,
        }
    }
}
