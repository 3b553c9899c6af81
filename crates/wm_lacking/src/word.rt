// The first word without a weight.
ghost use Rattle.std.specs.Prelude.{◌≡◌};
ghost use Rattle.wm_lacking.specs.Lacking.{is_absent, lacks, lacks_one, lacking};

use wm_ops::{COUNTED_WORDS, Counted, counted_at};
use wm_program::Program;
use wm_weights::Weights;

fn is_absent(weight: Option<u32>) -> bool
    ensures { result ≡ is_absent weight }
{
    match weight {
        None => true,
        Some(_) => false,
    }
}

/// Whether the program uses a word that has no weight.
fn lacks(program: &Program, weights: &Weights, word: Counted) -> bool
    ensures { result ≡ lacks program.now weights.now word }
{
    program.uses(word) && is_absent(weights.weight(word))
}

fn lacks_one(program: &Program, weights: &Weights, word: Option<Counted>) -> bool
    ensures { result ≡ lacks_one program.now weights.now word }
{
    match word {
        None => false,
        Some(word) => lacks(program, weights, word),
    }
}

/// The first word, in the order of the counted words, that the program uses and that has no weight. It takes no memory.
#[tactic(auto, unfolding(crate::specs::Lacking::lacking), using(crate::proofs::Words::next_word))]
pub fn lacking(program: &Program, weights: &Weights) -> Option<Counted>
    ensures lacking { result ≡ lacking program.now weights.now }
{
    for number in 0..COUNTED_WORDS {
        let word = counted_at(number);
        if lacks_one(program, weights, word) {
            return word;
        }
    }
    None
}
