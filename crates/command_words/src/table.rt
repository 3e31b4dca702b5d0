//! The table of commands and options. What is added here is read, and stands in the usage text.

ghost use Rattle.std.specs.Prelude.{◌≡◌, IfSome, IfNone, Contains};
ghost use Rattle.command_words.specs.declared.table.Setting.{Setting};
ghost use Rattle.command_words.specs.declared.table.Verb.{Verb};
ghost use Rattle.command_words.specs.Table.{verb_name, settings_of, option_name, option_word, least_of, most_of, default_of};

use hr_base::{MAX_CHUNK_LIMIT, MAX_PARTITIONS, MAX_PERCENT, MIN_CHUNK_LIMIT};

/// The count of partitions where none is given.
pub const DEFAULT_PARTITIONS: u8 = 8;

/// The limit of a chunk of values where none is given.
pub const DEFAULT_VALUE_LIMIT: u64 = 8_388_608;

/// The limit of a chunk of tombstones where none is given.
pub const DEFAULT_TOMB_LIMIT: u64 = 1_048_576;

/// The percentage of garbage where none is given.
pub const DEFAULT_PERCENT: u8 = 20;

/// What a session is asked to do.
#[derive(Clone, Copy, Debug, PartialEq, Eq)]
pub(crate) enum Verb {
    Play,
    Dump,
}

/// An option that is followed by its number.
#[derive(Clone, Copy, Debug, PartialEq, Eq)]
pub(crate) enum Setting {
    Partitions,
    ValueLimit,
    TombLimit,
    Percent,
}

/// A command's row: the word that names it, and the options that it takes.
#[derive(Clone, Copy)]
pub(crate) struct VerbRow {
    pub(crate) name: &'static str,
    pub(crate) settings: &'static [Setting],
}

/// An option's row: its name without the two hyphens, the range of its number, and the number where it is not given.
#[derive(Clone, Copy)]
pub(crate) struct SettingRow {
    pub(crate) name: &'static str,
    pub(crate) least: u64,
    pub(crate) most: u64,
    pub(crate) default: u64,
}

impl Verb {
    /// Every command that is built.
    pub(crate) const ALL: [Verb; 2] = [Verb::Play, Verb::Dump];

    /// The command's row of the table.
    pub(crate) fn row(self) -> VerbRow
        ensures name { result.name.now ≡ verb_name self }
        ensures settings { result.settings.now ≡ settings_of self }
    {
        match self {
            Verb::Play => VerbRow {
                name: "play",
                settings: &[
                    Setting::Partitions,
                    Setting::ValueLimit,
                    Setting::TombLimit,
                    Setting::Percent,
                ],
            },
            Verb::Dump => VerbRow {
                name: "dump",
                settings: &[Setting::Partitions],
            },
        }
    }

    /// The command that a word names.
    pub(crate) fn named(word: &[u8]) -> Option<Verb>
        ensures found { IfSome result (λ verb. word.now ≡ verb_name verb) }
        ensures none { IfNone result ((verb : Verb) → word.now ≡ verb_name verb → ⊥) }
    {
        for verb in &Verb::ALL {
            if verb.row().name.as_bytes() == word {
                return Some(*verb);
            }
        }
        None
    }

    /// The option of this command that a word names.
    pub(crate) fn setting_named(self, word: &[u8]) -> Option<Setting>
        ensures found { IfSome result (λ setting.
            Contains (settings_of self) setting × (word.now ≡ option_word setting)) }
        ensures none { IfNone result ((setting : Setting) →
            Contains (settings_of self) setting → word.now ≡ option_word setting → ⊥) }
    {
        let [b'-', b'-', name @ ..] = word else {
            return None;
        };
        for setting in self.row().settings {
            if setting.row().name.as_bytes() == name {
                return Some(*setting);
            }
        }
        None
    }
}

impl Setting {
    /// The option's row of the table.
    pub(crate) fn row(self) -> SettingRow
        ensures name { result.name.now ≡ option_name self }
        ensures least { result.least ≡ least_of self }
        ensures most { result.most ≡ most_of self }
        ensures default { result.default ≡ default_of self }
    {
        match self {
            Setting::Partitions => SettingRow {
                name: "partitions",
                least: 1,
                most: u64::from(MAX_PARTITIONS),
                default: u64::from(DEFAULT_PARTITIONS),
            },
            Setting::ValueLimit => SettingRow {
                name: "value-limit",
                least: MIN_CHUNK_LIMIT,
                most: MAX_CHUNK_LIMIT,
                default: DEFAULT_VALUE_LIMIT,
            },
            Setting::TombLimit => SettingRow {
                name: "tomb-limit",
                least: MIN_CHUNK_LIMIT,
                most: MAX_CHUNK_LIMIT,
                default: DEFAULT_TOMB_LIMIT,
            },
            Setting::Percent => SettingRow {
                name: "percent",
                least: 0,
                most: u64::from(MAX_PERCENT),
                default: u64::from(DEFAULT_PERCENT),
            },
        }
    }
}
