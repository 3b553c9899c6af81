// The seven commands, and the words that ask for each.
ghost use Rattle.std.specs.Prelude.{◌≡◌, map};
ghost use Rattle.std.specs.String.{string_bytes};
ghost use Rattle.wm_words.specs.Words.{form_of, two_words, three_words};
ghost use Rattle.wm_words.specs.Seen.{seen};

use crate::stages::read_stages;

/// What the words after the program's name ask for.
#[derive(Clone, Copy, Debug, PartialEq, Eq)]
pub enum Command<'w> {
    /// `prove SPEC`: find a certificate, check it and print the report.
    Prove { spec: &'w str },
    /// `check SPEC`: check the certificate that the specification names, and print the report.
    Check { spec: &'w str },
    /// `replay SPEC SAMPLES`: run the samples and print what came of each frame.
    Replay { spec: &'w str, samples: &'w str },
    /// `demo N`: prove the example of N stages, 1 to 500.
    Demo { stages: u32 },
    /// `worst SPEC`: print what makes the bound.
    Worst { spec: &'w str },
    /// `headroom SPEC`: print how far operands must be shifted down.
    Headroom { spec: &'w str },
    /// `observe SPEC SAMPLES`: run the samples and print what was seen beside what was proved.
    Observe { spec: &'w str, samples: &'w str },
    /// None of the seven forms.
    BadWords,
}

/// The command that the words ask for. `BadWords` stands exactly where they are none of the seven forms.
pub fn read_words(words: &[String]) -> Command<'_>
    ensures form { seen result ≡ form_of (map string_bytes words.now) }
{
    match words {
        [verb, word] => read_two(verb.as_str(), word.as_str()),
        [verb, spec, samples] => read_three(verb.as_str(), spec.as_str(), samples.as_str()),
        _ => Command::BadWords,
    }
}

/// The command of a verb and one word behind it.
fn read_two<'w>(verb: &str, word: &'w str) -> Command<'w>
    ensures { seen result ≡ two_words verb.now word.now }
{
    if verb == "prove" {
        return Command::Prove { spec: word };
    }
    if verb == "check" {
        return Command::Check { spec: word };
    }
    if verb == "demo" {
        return match read_stages(word.as_bytes()) {
            Some(stages) => Command::Demo { stages },
            None => Command::BadWords,
        };
    }
    if verb == "worst" {
        return Command::Worst { spec: word };
    }
    if verb == "headroom" {
        return Command::Headroom { spec: word };
    }
    Command::BadWords
}

/// The command of a verb and two words behind it.
fn read_three<'w>(verb: &str, spec: &'w str, samples: &'w str) -> Command<'w>
    ensures { seen result ≡ three_words verb.now spec.now samples.now }
{
    if verb == "replay" {
        return Command::Replay { spec, samples };
    }
    if verb == "observe" {
        return Command::Observe { spec, samples };
    }
    Command::BadWords
}
