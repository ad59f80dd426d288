//! The heap of a run on one thread.

ghost use Rattle.std.specs.Prelude.{◌≡◌, ◌+◌, ◌<◌, ◌≤◌, ◌⊎◌, ◌++◌, [], length, replicate, IfOk, IfErr};
ghost use Rattle.perm_meaning.specs.Objects.{size};
ghost use Rattle.perm_step.specs.Heaps.{Answers, IsFitting, IsWritten, Refuses};

use crate::ask::Ask;
use crate::control::{reference_to, set_word};
use crate::values::word_of;
use perm_tree::errors::NoMemory;
use std::alloc::{AllocError, Global};
use std::marker::Model;

/// Why an object isn't made: the heap has no room, or memory is refused.
#[derive(Clone, Copy, Debug, PartialEq, Eq)]
pub enum Shortage {
    HeapFull,
    NoMemory,
}

impl From<NoMemory> for Shortage {
    ghost use Rattle.std.specs.Prelude.{◌≡◌};
    ghost use Rattle.perm_step.specs.declared.heap.Shortage.TheVariants as shortages;

    ghost from_gives = { λ _ e. e ≡ shortages.NoMemory };

    fn from(_: NoMemory) -> Shortage {
        Shortage::NoMemory
    }
}

impl From<AllocError> for Shortage {
    ghost use Rattle.std.specs.Prelude.{◌≡◌};
    ghost use Rattle.perm_step.specs.declared.heap.Shortage.TheVariants.{NoMemory};

    ghost from_gives = { λ _ e. e ≡ NoMemory };

    fn from(_: AllocError) -> Shortage {
        Shortage::NoMemory
    }
}

/// The words that are given so far, of at most so many.
#[derive(Debug, Drop)]
pub struct Heap {
    words: Vec<u64>,
    limit: u64,
}

impl Model for Heap {
    ghost use Rattle.perm_step.specs.Heaps.{Heaped};

    ghost Value = { Heaped };

    ghost view = { λ h. record { words = h.words.items; limit = h.limit } };
}

impl Heap {
    /// A heap of so many words, of which none is given.
    pub fn new(alloc: Global, limit: u64) -> Heap
        ensures { result ≡ record { words = []; limit = limit } }
    {
        Heap {
            words: Vec::new(alloc),
            limit,
        }
    }

    /// Does what a step asks, and answers the word that it finds.
    #[inline(always)]
    pub fn answer(&mut self, ask: Ask) -> Result<u64, Shortage>
        requires small { self.old.limit ≤ 4194304 }
        requires fitting { IsFitting ask }
        ensures answers { IfOk result (λ word. Answers ask self.old word self.new) }
        ensures refused { IfErr result (Refuses ask self.old self.new) }
    {
        match ask {
            Ask::Nothing | Ask::Fork => Ok(0),
            Ask::Load(at) => Ok(word_of(self.words.as_slice(), at)),
            Ask::Store(at, word) => {
                set_word(&mut self.words, at, word);
                Ok(0)
            }
            Ask::Take(at) => {
                let word = word_of(self.words.as_slice(), at);
                set_word(&mut self.words, at, 0);
                Ok(word)
            }
            Ask::Make(count, length) => {
                let base = self.give(count)?;
                Ok(reference_to(base, length))
            }
        }
    }

    /// The base of so many new words, of which an object has at least one.
    fn give(&mut self, count: usize) -> Result<u64, Shortage>
        ensures given { IfOk result (λ base. (base ≡ length self.old.words) × (base + size count ≤ self.old.limit) × (self.new ≡ record self.old { words = self.old.words ++ replicate (size count) 0 })) }
        ensures refused { IfErr result (λ e. (e ≡ Shortage.NoMemory) ⊎ ((e ≡ Shortage.HeapFull) × (self.old.limit < length self.old.words + size count) × (self.new ≡ self.old))) }
    {
        let base = self.words.len();
        let count = count.max(1);
        if self.limit.saturating_sub(base as u64) < count as u64 {
            return Err(Shortage::HeapFull);
        }
        self.words.resize(base + count, 0)?;
        Ok(base as u64)
    }

    /// Writes numbers into the first words.
    pub fn write_numbers(&mut self, numbers: &[i64])
        requires { length numbers.now ≤ length self.old.words }
        ensures { IsWritten numbers.now self.old self.new }
    {
        for (at, number) in numbers.iter().enumerate() {
            self.words[at] = number.cast_unsigned();
        }
    }

    /// The words that are given.
    pub fn into_words(self) -> Vec<u64>
        ensures { result.items ≡ self.words }
    {
        let Heap { words, limit: _ } = self;
        words
    }
}
