//! The writers of a session, one for each partition, at its end.

ghost use Rattle.std.specs.Prelude.{◌≡◌, ◌+◌, ◌-◌, ◌^◌, ◌≤◌, true, min, None, Some};
ghost use Rattle.hr_base.specs.declared.name.ChunkName.{ChunkName};
ghost use Rattle.dir_files.specs.Files.{FileState};
ghost use Rattle.dir_files.specs.Ports.{either_file};
ghost use Rattle.dir_files.specs.PortStates.{IsGivenBack};
ghost use Rattle.writer_files.specs.Stocks.{files_of};
ghost use Rattle.partition_writer.specs.WriterViews.{standing};
ghost use Rattle.restart_load.specs.Writers.{EachIs, standings};
ghost use Rattle.store_drill.specs.Writers.{EachFits, HasNumber, IsApart, OwnsFiles, faults_of, files_at};

use dir_files::Folder;
use partition_writer::Writer;

/// Closes a writer, whose files lie in the folder from then on.
fn close_writer<F: Folder>(writer: Writer<F>, folder: &mut F)
    requires given_back { F.tells ≡ true → IsGivenBack (F.port folder.old) }
    requires apart { F.tells ≡ true → IsApart (F.port folder.old).held (standing writer) }
    ensures given_back { F.tells ≡ true → IsGivenBack (F.port folder.new) }
    ensures held { F.tells ≡ true → (name : ChunkName) → (F.port folder.new).held name
        ≡ either_file ((F.port folder.old).held name) (files_of (standing writer).stock name) }
    ensures count { min (F.count folder.old + (standing writer).faults) (2 ^ 64 - 1) ≤ F.count folder.new }
    ensures kept { F.count folder.old ≤ F.count folder.new }
{
    folder.adopt(writer.close());
}

/// Closes all writers. The folder has their files beside its own from then on.
pub(crate) fn close_writers<F: Folder>(mut writers: Vec<Writer<F>>, folder: &mut F)
    requires given_back { F.tells ≡ true → IsGivenBack (F.port folder.old) }
    requires numbers { EachFits HasNumber (standings writers.items) (λ p. p) }
    requires own { F.tells ≡ true → EachIs OwnsFiles (standings writers.items) }
    requires apart { F.tells ≡ true → EachIs (IsApart (F.port folder.old).held) (standings writers.items) }
    ensures given_back { F.tells ≡ true → IsGivenBack (F.port folder.new) }
    ensures held { F.tells ≡ true → (name : ChunkName) → (F.port folder.new).held name
        ≡ either_file ((F.port folder.old).held name) (files_at (standings writers.items) name) }
    ensures count { min (F.count folder.old + faults_of (standings writers.items)) (2 ^ 64 - 1) ≤ F.count folder.new }
    ensures kept { F.count folder.old ≤ F.count folder.new }
{
    while let Some(writer) = writers.pop() {
        close_writer(writer, folder);
    }
    writers.destroy_empty();
}
