//! Laws of a writer's facts: what it stands for after each answer, and what it leaves.

ghost use Rattle.std.specs.Prelude.{◌≡◌, ℕ, [], true, false, Some, None, Contains, take};
ghost use Rattle.std.specs.Option.{option_map};
ghost use Rattle.hr_base.specs.declared.name.ChunkName.{ChunkName};
ghost use Rattle.dir_files.specs.Files.{FileState};
ghost use Rattle.record_format.specs.Spelling.{spelling};
ghost use Rattle.crash_law.specs.Accounts.{Account, answered, fresh_account, refused, synced};
ghost use Rattle.crash_law.specs.Commands.{Command, command_of, is_written, maps_after};
ghost use Rattle.crash_law.specs.Crashes.{PartSurvives};
ghost use Rattle.crash_law.specs.Growth.{PartRises};
ghost use Rattle.crash_law.specs.Placed.{IsExactly, Placed, in_chunk};
ghost use Rattle.crash_law.specs.Restarts.{RestartsAs};
ghost use Rattle.crash_law.specs.Writers.{AppendsRecord, BeginsFrom, CreatesFile, IsDurableFile, IsWholeIn, KeepsRecords, LosesRecord, StandsFor, WriterStart, SyncsRecords, Written};

/// A writer that begins stands for the maps that it begins with.
pub fn a_begun_writer_stands()
    ensures { (w : Written) (b : WriterStart) → BeginsFrom w b → StandsFor w b (fresh_account b.maps) }
{}

/// What a writer stands for after a command. It was answered and its record appended; or it was answered and changes
/// nothing; or the disk refused its record, of which a front was appended, or which found no file.
pub fn a_command_stands()
    ensures answered { (w t : Written) (b : WriterStart) (a : Account) (x : Placed)
        → StandsFor w b a → w.lost ≡ false → AppendsRecord w t x (spelling x.content) → t.lost ≡ false
        → t.maps ≡ maps_after (command_of x.content) w.maps → is_written (command_of x.content) w.maps ≡ true
        → StandsFor t b (answered a (command_of x.content)) }
    ensures unwritten { (w : Written) (b : WriterStart) (a : Account) (c : Command)
        → StandsFor w b a → is_written c w.maps ≡ false → StandsFor w b (answered a c) }
    ensures torn { (w t : Written) (b : WriterStart) (a : Account) (x : Placed) (n : ℕ)
        → StandsFor w b a → w.lost ≡ false → AppendsRecord w t x (take n (spelling x.content)) → t.lost ≡ true
        → t.maps ≡ w.maps → StandsFor t b (refused a (command_of x.content)) }
    ensures lost { (w t : Written) (b : WriterStart) (a : Account) (x : Placed)
        → StandsFor w b a → w.lost ≡ false → LosesRecord w t x → t.lost ≡ true
        → t.maps ≡ w.maps → StandsFor t b (refused a (command_of x.content)) }
{}

/// A call that put no record behind the others leaves what a writer stands for, also where a crash now keeps more of its
/// files, or a file was created.
pub fn a_kept_writer_stands()
    ensures risen { (w t : Written) (b : WriterStart) (a : Account)
        → StandsFor w b a → KeepsRecords w t → PartRises w.partition w.files t.files → StandsFor t b a }
    ensures created { (w t : Written) (b : WriterStart) (a : Account) (name : ChunkName)
        → StandsFor w b a → KeepsRecords w t → w.lost ≡ false → CreatesFile w t name → StandsFor t b a }
{}

/// After an answered sync a writer stands for the account whose maps are durable.
pub fn a_synced_writer_stands()
    ensures { (w t : Written) (b : WriterStart) (a : Account)
        → StandsFor w b a → w.lost ≡ false → SyncsRecords w t → StandsFor t b (synced a) }
{}

/// Every crash of a writer's files recovers; and where no record may lack bytes, what is read of them restarts to exactly
/// its maps.
pub fn what_a_writer_leaves()
    ensures survives { (w : Written) (b : WriterStart) (a : Account)
        → StandsFor w b a → PartSurvives w.partition w.files w.gone a }
    ensures exact { (w : Written) (b : WriterStart) (a : Account) → StandsFor w b a → w.lost ≡ false
        → RestartsAs (λ name. option_map (λ file. file.bytes) (w.files name)) w.partition a.maps }
{}

/// Where no record may lack bytes, each record since the last answered sync is whole in the file of its chunk.
pub fn each_kept_record_is_whole()
    ensures { (w : Written) (b : WriterStart) (a : Account) (x : Placed)
        → StandsFor w b a → w.lost ≡ false → Contains w.records x → IsWholeIn w.files x }
{}

/// Where no record waits for a sync, the durable maps are the maps. A crash then keeps each file of the partition whole,
/// and a file that was not found has just the durable records of its chunk.
pub fn each_record_is_durable_after_a_sync()
    ensures maps { (w : Written) (b : WriterStart) (a : Account) → StandsFor w b a → w.records ≡ [] → a.durable ≡ a.maps }
    ensures files { (w : Written) (b : WriterStart) (a : Account) (name : ChunkName) (file : FileState)
        → StandsFor w b a → w.records ≡ [] → name.partition.0 ≡ w.partition → w.files name ≡ Some file → IsDurableFile file }
    ensures records { (w : Written) (b : WriterStart) (a : Account) (stands : StandsFor w b a) (name : ChunkName)
        → w.records ≡ [] → name.partition.0 ≡ w.partition → b.found name ≡ None
        → IsExactly (w.files name) (in_chunk name stands.durable) }
{}
