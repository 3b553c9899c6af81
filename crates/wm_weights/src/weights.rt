// A table with one weight, or none, for each counted word.
ghost use Rattle.std.specs.Prelude.{◌≡◌};
ghost use Rattle.wm_weights.specs.Table.{none_given, ones, weight_of, with_weight};

use std::marker::Model;
use wm_ops::{COUNTED_WORDS, Counted, counted_number};

/// The weights of the counted words, which contracts see as a list in the order of the words.
#[derive(Clone, Copy, Debug)]
pub struct Weights {
    numbers: [Option<u32>; COUNTED_WORDS],
}

impl Model for Weights {
    ghost use Rattle.std.specs.Prelude.{ℕ, List, Option};

    ghost Value = { List (Option ℕ) };

    ghost view = { λ weights. weights.numbers };

    ghost inverse = { λ numbers. record { numbers = numbers } };
}

/// The weight 1 for each counted word.
pub fn all_ones() -> Weights
    ensures ones { result ≡ ones }
{
    Weights {
        numbers: [Some(1); COUNTED_WORDS],
    }
}

impl Weights {
    /// No weight for any word.
    pub(crate) fn none() -> Weights
        ensures { result ≡ none_given }
    {
        Weights {
            numbers: [None; COUNTED_WORDS],
        }
    }

    /// The word's weight; None exactly where the file has no key of the word.
    pub fn weight(&self, word: Counted) -> Option<u32>
        ensures weight { result ≡ weight_of self.now word }
    {
        self.numbers[counted_number(word)]
    }

    /// Gives the word this weight.
    pub(crate) fn set(&mut self, word: Counted, weight: u32)
        ensures { self.new ≡ with_weight self.old word weight }
    {
        self.numbers[counted_number(word)] = Some(weight);
    }
}
