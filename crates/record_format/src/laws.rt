//! What holds of spellings, of splits and of steps. Each law is the contract of a function that does nothing.

ghost use Rattle.std.specs.Prelude.{◌≡◌, ◌<◌, ◌++◌, ◌⊎◌, ℕ, List, [], ◌∷◌, All, drop, length};
ghost use Rattle.hr_base.specs.declared.name.Class.{Class};
ghost use Rattle.hr_base.specs.Records.{record_length};
ghost use Rattle.record_format.specs.declared.reading.Step.{Step};
ghost use Rattle.record_format.specs.declared.reading.Step.TheVariants.{Torn};
ghost use Rattle.record_format.specs.declared.record.Record.{Record};
ghost use Rattle.record_format.specs.Spelling.{class_of_record, key_of, spelling, spellings, value_of};
ghost use Rattle.record_format.specs.Splits.{BeginsWith, IsDamaged, IsOfClass, IsTorn, SpellsNone, Splits};
ghost use Rattle.record_format.specs.Steps.{IsStep, SameStep};
ghost use Rattle.record_format.specs.Prefixes.{PrefixSplit};

/// No spelling begins another of its class: where two spellings with bytes behind them are the
/// same bytes, they spell the same record, and the same bytes follow.
pub fn no_spelling_begins_another()
    ensures { (c : Class) (a b : Record) (x y : List ℕ)
        → IsOfClass c a → IsOfClass c b → spelling a ++ x ≡ spelling b ++ y
        → (a ≡ b) × (x ≡ y) }
{}

/// Bytes split in at most one way.
pub fn one_split()
    ensures { (c : Class) (bytes : List ℕ) (rs ss : List Record) (x y : List ℕ)
        → Splits c bytes rs x → Splits c bytes ss y → (rs ≡ ss) × (x ≡ y) }
{}

/// All bytes split.
pub fn some_split()
    ensures { (c : Class) (bytes : List ℕ) → All (λ b. b < 256) bytes
        → (rs : List Record) × (rest : List ℕ) × Splits c bytes rs rest }
{}

/// Whatever a crash leaves of spelled records splits: into the first of these records, all that
/// are whole there, and a torn rest.
pub fn a_prefix_splits()
    ensures { (c : Class) (rs : List Record) (b rest : List ℕ)
        → All (IsOfClass c) rs → spellings rs ≡ b ++ rest → PrefixSplit c rs b }
{}

/// Spelled records split into themselves, with nothing left, and nothing is torn.
pub fn whole_spellings_split()
    ensures split { (c : Class) (rs : List Record)
        → All (IsOfClass c) rs → Splits c (spellings rs) rs [] }
    ensures torn { (c : Class) → IsTorn c [] }
{}

/// A split is found from its first record on: that record, and then what the bytes behind it
/// split into. Where no record is first, there is none.
pub fn first_record_splits_off()
    ensures more { (c : Class) (bytes more rest : List ℕ) (r : Record) (rs : List Record)
        → IsOfClass c r → bytes ≡ spelling r ++ more → Splits c more rs rest
        → Splits c bytes (r ∷ rs) rest }
    ensures none { (c : Class) (bytes : List ℕ)
        → SpellsNone c bytes → Splits c bytes [] bytes }
{}

/// A split is found record by record: before the first one, after one more, and where no more
/// follow. What is not read yet begins behind the spellings of what is read.
pub fn records_are_read_in_turn()
    ensures start { (c : Class) (bytes : List ℕ) → BeginsWith c bytes [] bytes }
    ensures more { (c : Class) (bytes rest more : List ℕ) (rs : List Record) (r : Record)
        → BeginsWith c bytes rs rest → IsOfClass c r → rest ≡ spelling r ++ more
        → BeginsWith c bytes (rs ++ r ∷ []) more }
    ensures end { (c : Class) (bytes rest : List ℕ) (rs : List Record)
        → BeginsWith c bytes rs rest → SpellsNone c rest → Splits c bytes rs rest }
    ensures place { (c : Class) (bytes rest : List ℕ) (rs : List Record)
        → BeginsWith c bytes rs rest → drop (length (spellings rs)) bytes ≡ rest }
{}

/// A spelling's length follows from the record's class and the lengths of its key and value.
pub fn spelling_length()
    ensures { (r : Record) → length (spelling r)
        ≡ record_length (class_of_record r) (length (key_of r)) (length (value_of r)) }
{}

/// Bytes begin with one thing: two steps that both hold say the same.
pub fn one_step()
    ensures { (c : Class) (bytes : List ℕ) (a b : Step)
        → IsStep c bytes a → IsStep c bytes b → SameStep a b }
{}

/// All bytes begin with something.
pub fn some_step()
    ensures { (c : Class) (bytes : List ℕ) → All (λ b. b < 256) bytes
        → (step : Step) × IsStep c bytes step }
{}

/// A whole record and a flaw stay what the bytes begin with, whatever follows.
pub fn a_step_stays()
    ensures { (c : Class) (bytes more : List ℕ) (step : Step)
        → IsStep c bytes step → (step ≡ Torn) ⊎ IsStep c (bytes ++ more) step }
{}

/// Where a header is that no record has, no record is spelled.
pub fn damaged_bytes_spell_none()
    ensures { (c : Class) (bytes : List ℕ) → IsDamaged c bytes → SpellsNone c bytes }
{}
