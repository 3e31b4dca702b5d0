//! Numbers as words.

ghost use Rattle.std.specs.Prelude.{◌≡◌, ◌≤◌, ℕ, IfSome, IfNone, decimal};
ghost use Rattle.command_words.specs.Table.{IsNumberFor};

use crate::table::Setting;
use hr_base::read_decimal;

impl Setting {
    /// The number in the option's range that a word spells in decimal without leading zeros.
    pub(crate) fn read(self, word: &[u8]) -> Option<u64>
        ensures found { IfSome result (λ n. IsNumberFor self n × (word.now ≡ decimal n)) }
        ensures none { IfNone result ((n : ℕ) → IsNumberFor self n → word.now ≡ decimal n → ⊥) }
    {
        let number = read_decimal(word)?;
        let row = self.row();
        if row.least <= number && number <= row.most {
            Some(number)
        } else {
            None
        }
    }
}
