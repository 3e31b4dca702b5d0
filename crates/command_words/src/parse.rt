//! The words as `clap` reads them.

ghost use Rattle.std.specs.Prelude.{◌≡◌, false, [], IfOk, OnOk, IsErrOf};
ghost use Rattle.clap.specs.Words.{app_of, fault_of, rule_of};
ghost use Rattle.clap.specs.declared.builder.command.Command.TheViews.{out-Command as fields_of};
ghost use Rattle.command_words.specs.declared.read.Command.{Command};
ghost use Rattle.command_words.specs.declared.parse.WordsRefusal.{WordsRefusal};
ghost use Rattle.command_words.specs.Program.{option_rule, program_app, verb_app};
ghost use Rattle.command_words.specs.Words.{IsCommand, word_texts};

use crate::table::{Setting, Verb};
use clap::Arg;
use clap::error::ErrorKind;
use std::alloc::{AllocError, Global};
use thiserror::Error;

/// Why words were not read.
#[derive(Clone, Copy, Debug, PartialEq, Eq, Error)]
pub enum WordsRefusal {
    /// There was no memory.
    #[error("out of memory")]
    Memory,
    /// The words mean no command.
    #[error("no command")]
    Words,
}

impl From<AllocError> for WordsRefusal {
    ghost from_gives = { λ _ refusal. refusal ≡ WordsRefusal.Memory };

    fn from(_refused: AllocError) -> WordsRefusal {
        WordsRefusal::Memory
    }
}

/// An option as `clap` knows it: its name, with one value after it.
pub(crate) fn option<'a>(alloc: Global, setting: Setting) -> Arg<'a>
    ensures rule { rule_of result ≡ option_rule setting }
    ensures own { result.global ≡ false }
{
    let name: &'a str = setting.row().name;
    Arg::new(alloc, name).long(name)
}

// A command as `clap` knows it.
fn subcommand<'a>(alloc: Global, verb: Verb) -> Result<clap::Command<'a>, AllocError>
    ensures app { IfOk result (λ command. app_of command ≡ verb_app verb) }
    ensures own { IfOk result (λ command. (fields_of command).has_globals ≡ false) }
{
    let row = verb.row();
    let name: &'a str = row.name;
    let mut command: clap::Command<'a> = clap::Command::new(alloc, name);
    for setting in row.settings {
        command = command.arg(option(alloc, *setting))?;
    }
    Ok(command)
}

// The program as `clap` knows it: the folder stands for its name, and it has one level of subcommands.
fn program<'a>(alloc: Global) -> Result<clap::Command<'a>, AllocError>
    ensures { IfOk result (λ command. app_of command ≡ program_app) }
{
    let name: &'a str = "FOLDER";
    let mut program: clap::Command<'a> = clap::Command::new(alloc, name)
        .subcommand_required(true)
        .disable_help_flag(true)
        .disable_help_subcommand(true);
    for verb in &Verb::ALL {
        program = program.subcommand(subcommand(alloc, *verb)?)?;
    }
    Ok(program)
}

/// Lets `clap` refuse the words by the names in them: a stray word, a missing value, a name that is unknown or
/// stands twice.
pub(crate) fn check_names<'a>(alloc: Global, words: &'a [String]) -> Result<(), WordsRefusal>
    ensures taken { OnOk result (fault_of program_app (word_texts words.entry.now) ≡ []) }
    ensures refused { IsErrOf result WordsRefusal.Words →
        (command : Command) → IsCommand (word_texts words.entry.now) command → ⊥ }
{
    match program(alloc)?.try_get_matches_from(words) {
        Ok(_) => Ok(()),
        Err(error) => match error.kind() {
            ErrorKind::OutOfMemory => Err(WordsRefusal::Memory),
            _ => Err(WordsRefusal::Words),
        },
    }
}
