//! Reading the words.

ghost use Rattle.std.specs.Prelude.{◌≡◌, ◌↔◌, List, IsTrue, IfSome, IfNone, IfOk, IsErrOf, Contains};
ghost use Rattle.command_words.specs.declared.read.Command.{Command};
ghost use Rattle.command_words.specs.declared.parse.WordsRefusal.{WordsRefusal};
ghost use Rattle.command_words.specs.Words.{Given, IsCommand, IsOptions, GivesLimits, word_texts, with_number, IsInLimits};
ghost use Rattle.command_words.specs.Table.{IsNumberFor};

use crate::parse::{WordsRefusal, check_names};
use crate::table::{
    DEFAULT_PARTITIONS, DEFAULT_PERCENT, DEFAULT_TOMB_LIMIT, DEFAULT_VALUE_LIMIT, Setting, Verb,
};
use hr_base::Limits;
use std::alloc::Global;

/// What the words ask for.
#[derive(Clone, Copy, Debug, PartialEq, Eq)]
pub enum Command {
    /// A session over the lines of a script.
    Play(Limits),
    /// The entries of all maps as text. Only the count of partitions can be set.
    Dump(Limits),
}

/// The limits where no option is given.
const DEFAULT_LIMITS: Limits = Limits {
    partitions: DEFAULT_PARTITIONS,
    value: DEFAULT_VALUE_LIMIT,
    tomb: DEFAULT_TOMB_LIMIT,
    percent: DEFAULT_PERCENT,
};

/// Reads the words after the program's name. Of the folder, which comes first, nothing is made. `clap` refuses what
/// it can tell by the names; the reading behind it tells all by itself, and refuses also `=`, `--` and wrong numbers.
pub fn read_words(alloc: Global, words: &[String]) -> Result<Command, WordsRefusal>
    ensures found { IfOk result (IsCommand (word_texts words.now)) }
    ensures refused { IsErrOf result WordsRefusal.Words →
        (command : Command) → IsCommand (word_texts words.now) command → ⊥ }
    ensures ranges { IfOk result IsInLimits }
{
    check_names(alloc, words)?;
    read_command(words).ok_or(WordsRefusal::Words)
}

// The command that words mean, if they mean one.
fn read_command(words: &[String]) -> Option<Command>
    ensures found { IfSome result (IsCommand (word_texts words.now)) }
    ensures none { IfNone result ((command : Command) → IsCommand (word_texts words.now) command → ⊥) }
    ensures ranges { IfSome result IsInLimits }
{
    let [_folder, name, options @ ..] = words else {
        return None;
    };
    let verb = Verb::named(name.as_bytes())?;
    let limits = read_options(verb, options)?;
    Some(match verb {
        Verb::Play => Command::Play(limits),
        Verb::Dump => Command::Dump(limits),
    })
}

// The limits that options with their numbers set.
fn read_options(verb: Verb, words: &[String]) -> Option<Limits>
    ensures found { IfSome result (GivesLimits verb (word_texts words.now)) }
    ensures none { IfNone result ((givens : List Given) → IsOptions verb (word_texts words.now) givens → ⊥) }
{
    match words {
        [] => Some(DEFAULT_LIMITS),
        [name, value, rest @ ..] => {
            let setting = verb.setting_named(name.as_bytes())?;
            let number = setting.read(value.as_bytes())?;
            if has_word(rest, name.as_bytes()) {
                return None;
            }
            let others = read_options(verb, rest)?;
            Some(set(others, setting, number))
        }
        _ => None,
    }
}

// Whether a word stands among others.
fn has_word(words: &[String], word: &[u8]) -> bool
    ensures { IsTrue result ↔ Contains (word_texts words.now) word.now }
{
    for other in words {
        if other.as_bytes() == word {
            return true;
        }
    }
    false
}

// The limits with one of them set.
fn set(limits: Limits, setting: Setting, number: u64) -> Limits
    requires { IsNumberFor setting number }
    ensures { result ≡ with_number limits setting number }
{
    match setting {
        Setting::Partitions => Limits {
            partitions: number as u8,
            ..limits
        },
        Setting::ValueLimit => Limits {
            value: number,
            ..limits
        },
        Setting::TombLimit => Limits {
            tomb: number,
            ..limits
        },
        Setting::Percent => Limits {
            percent: number as u8,
            ..limits
        },
    }
}
