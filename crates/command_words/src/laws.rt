//! Laws of the words. Each is the contract of a function that does nothing.

ghost use Rattle.std.specs.Prelude.{◌≡◌, ℕ, List, All, drop};
ghost use Rattle.command_words.specs.declared.read.Command.{Command};
ghost use Rattle.command_words.specs.declared.table.TheConstants.{DEFAULT_PARTITIONS, DEFAULT_PERCENT, DEFAULT_TOMB_LIMIT, DEFAULT_VALUE_LIMIT};
ghost use Rattle.command_words.specs.Words.{IsCommand, IsInLimits, IsLaterWord};

/// Words mean one command at most.
pub fn one_meaning()
    ensures { (words : List (List ℕ)) (a b : Command) → IsCommand words a → IsCommand words b → a ≡ b }
{}

/// The limits of a command are in their ranges.
pub fn limits_in_range()
    ensures { (words : List (List ℕ)) (command : Command) → IsCommand words command → IsInLimits command }
{}

/// No word behind the folder has a `=`, and none but an option's name begins with a hyphen.
pub fn later_words()
    ensures { (words : List (List ℕ)) (command : Command) → IsCommand words command
        → All IsLaterWord (drop 1 words) }
{}

/// The numbers of options that are not given, as `docs/FORMATS.md` states them.
pub fn defaults_as_stated()
    ensures partitions { DEFAULT_PARTITIONS ≡ 8 }
    ensures value_limit { DEFAULT_VALUE_LIMIT ≡ 8388608 }
    ensures tomb_limit { DEFAULT_TOMB_LIMIT ≡ 1048576 }
    ensures percent { DEFAULT_PERCENT ≡ 20 }
{}
