// The number of stages of a generated example, as a word of the command line spells it.
ghost use Rattle.std.specs.Prelude.{◌≡◌};
ghost use Rattle.wm_words.specs.Stages.{stages_of, spelled_after, in_range};

const MOST_STAGES: u32 = 500;

/// The number that a word spells: decimal, 1 to 500, without a leading zero.
pub(crate) fn read_stages(word: &[u8]) -> Option<u32>
    ensures { result ≡ stages_of word.now }
{
    match word.first() {
        None | Some(b'0') => None,
        Some(_) => read_digits(word),
    }
}

/// The number that the digits spell, where it is at most 500.
fn read_digits(word: &[u8]) -> Option<u32>
    ensures { result ≡ in_range (spelled_after 0 word.now) }
{
    let mut stages = 0;
    for &byte in word {
        if !byte.is_ascii_digit() {
            return None;
        }
        stages = 10 * stages + (byte - b'0') as u32;
        if stages > MOST_STAGES {
            return None;
        }
    }
    Some(stages)
}
