//! What the program came to.

ghost use Rattle.std.specs.Prelude.{◌≡◌};
ghost use Rattle.store_serve.specs.Ends.{outcome_of_input, outcome_of_script, outcome_of_words};

use command_words::WordsRefusal;
use hr_edges::InputRefusal;
use script_text::ScriptRefusal;
use store_drill::Ended;

/// What the program came to: a refusal before any session, or how a session ended.
#[derive(Clone, Copy, Debug, PartialEq, Eq)]
pub enum Outcome {
    /// The words mean no command.
    Words,
    /// The script has too many bytes.
    TooLong,
    /// The first line that is none of the grammar, counted from 1.
    BadLine { number: u64 },
    /// The input failed.
    Input,
    /// A session ended so. Memory may also be wanting before it begins.
    Ended(Ended),
}

impl From<WordsRefusal> for Outcome {
    ghost from_gives = { λ refusal o. o ≡ outcome_of_words refusal };

    fn from(refusal: WordsRefusal) -> Outcome {
        match refusal {
            WordsRefusal::Memory => Outcome::Ended(Ended::Memory),
            WordsRefusal::Words => Outcome::Words,
        }
    }
}

impl From<InputRefusal> for Outcome {
    ghost from_gives = { λ refusal o. o ≡ outcome_of_input refusal };

    fn from(refusal: InputRefusal) -> Outcome {
        match refusal {
            InputRefusal::Memory => Outcome::Ended(Ended::Memory),
            InputRefusal::TooLong => Outcome::TooLong,
            InputRefusal::Failed => Outcome::Input,
        }
    }
}

impl From<ScriptRefusal> for Outcome {
    ghost from_gives = { λ refusal o. o ≡ outcome_of_script refusal };

    fn from(refusal: ScriptRefusal) -> Outcome {
        match refusal {
            ScriptRefusal::Memory => Outcome::Ended(Ended::Memory),
            ScriptRefusal::Line { number } => Outcome::BadLine { number },
        }
    }
}
