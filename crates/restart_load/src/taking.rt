//! The chunk files of a folder, in hand.

ghost use Rattle.std.specs.Prelude.{◌≡◌, ◌≤◌, ◌+◌, ◌++◌, ◌∷◌, List, [], true, false, All, IsSome, IfSome, OnErr, OnOk, map, vec_capacity, length};
ghost use Rattle.hr_base.specs.declared.name.ChunkName.{ChunkName};
ghost use Rattle.hr_base.specs.Names.{IsChunkName};
ghost use Rattle.dir_files.specs.Faults.{CountsFault, is_fault};
ghost use Rattle.dir_files.specs.Files.{FileState, IsDurable};
ghost use Rattle.dir_files.specs.Ports.{IsListing, Port};
ghost use Rattle.dir_files.specs.PortStates.{IsGivenBack};
ghost use Rattle.restart_load.specs.Taking.{AllDurableWith, AllNamed, HasTaken, TakenFile};

use dir_files::{Folder, FolderRefusal};
use hr_base::ChunkName;
use std::marker::Model;

/// A chunk file in hand.
pub(crate) struct Taken<F: Folder> {
    pub(crate) name: ChunkName,
    pub(crate) file: F::File,
}

impl<F: Folder> Model for Taken<F> {
    ghost use Rattle.std.specs.Prelude.{◌≡◌, true, Some};
    ghost use Rattle.restart_load.specs.Taking.{TakenFile};

    ghost Value = { TakenFile };

    ghost view = { λ it. record { name = it.name; file = F.state it.file } };

    ghost invariant = { λ it. F.tells ≡ true → F.File.name it.file ≡ Some it.name };
}

/// Takes a file in hand and makes its bytes durable, and puts it behind the others. Where that fails it is given back.
fn take_one<F: Folder>(
    folder: &mut F,
    name: ChunkName,
    files: &mut Vec<Taken<F>>,
) -> Result<(), FolderRefusal>
    requires valid { IsChunkName name }
    requires held { F.tells ≡ true → IsSome ((F.port folder.old).held name) }
    requires room { length files.old.items + 1 ≤ vec_capacity files.old }
    ensures taken { F.tells ≡ true → (start : Port) → HasTaken start (F.port folder.old) files.old.items
        → HasTaken start (F.port folder.new) files.new.items }
    ensures durable { F.tells ≡ true → AllNamed (F.port folder.old) → All (λ taken. IsDurable taken.file) files.old.items
        → All (λ taken. IsDurable taken.file) files.new.items }
    ensures stay { OnErr result (files.new.items ≡ files.old.items) }
    ensures names { OnOk result (map (λ taken. taken.name) files.new.items ≡ map (λ taken. taken.name) files.old.items ++ name ∷ []) }
    ensures room { vec_capacity files.new ≡ vec_capacity files.old }
    ensures counts { CountsFault (is_fault result) (F.count folder.old) (F.count folder.new) }
{
    let mut file = folder.take(name)?;
    match folder.sync_file(&mut file) {
        Ok(()) => {
            files.push_reserved(Taken { name, file });
            Ok(())
        }
        Err(refusal) => {
            folder.give(file);
            Err(refusal)
        }
    }
}

/// Takes all files in hand, in this order, and makes their bytes durable. Where the folder refuses one, those before it
/// are in hand.
pub(crate) fn take_files<F: Folder>(
    folder: &mut F,
    names: &[ChunkName],
    files: &mut Vec<Taken<F>>,
) -> Result<(), FolderRefusal>
    requires valid { All IsChunkName names.now }
    requires none { files.old.items ≡ [] }
    requires room { length names.now ≤ vec_capacity files.old }
    requires listed { F.tells ≡ true → IsListing (F.port folder.old) names.now }
    requires given_back { F.tells ≡ true → IsGivenBack (F.port folder.old) }
    requires named { F.tells ≡ true → AllNamed (F.port folder.old) }
    ensures taken { F.tells ≡ true → HasTaken (F.port folder.old) (F.port folder.new) files.new.items }
    ensures durable { F.tells ≡ true → OnOk result (AllDurableWith (F.port folder.new) files.new.items) }
    ensures names { OnOk result (map (λ taken. taken.name) files.new.items ≡ names.now) }
    ensures counts { CountsFault (is_fault result) (F.count folder.old) (F.count folder.new) }
{
    for name in names {
        take_one(folder, *name, files)?;
    }
    Ok(())
}

/// Gives a file back.
fn give_one<F: Folder>(folder: &mut F, taken: Taken<F>)
    ensures given { F.tells ≡ true → (start : Port) (files : List TakenFile) → HasTaken start (F.port folder.old) (files ++ taken ∷ [])
        → HasTaken start (F.port folder.new) files }
    ensures durable { F.tells ≡ true → (start : Port) (files : List TakenFile) → HasTaken start (F.port folder.old) (files ++ taken ∷ [])
        → AllDurableWith (F.port folder.old) (files ++ taken ∷ []) → AllDurableWith (F.port folder.new) files }
    ensures count { F.count folder.new ≡ F.count folder.old }
{
    let Taken { name: _, file } = taken;
    folder.give(file);
}

/// Gives all files back.
pub(crate) fn give_files<F: Folder>(folder: &mut F, mut files: Vec<Taken<F>>)
    ensures given { F.tells ≡ true → (start : Port) → HasTaken start (F.port folder.old) files.items
        → HasTaken start (F.port folder.new) [] }
    ensures durable { F.tells ≡ true → (start : Port) → HasTaken start (F.port folder.old) files.items
        → AllDurableWith (F.port folder.old) files.items → AllDurableWith (F.port folder.new) [] }
    ensures count { F.count folder.new ≡ F.count folder.old }
{
    while let Some(taken) = files.pop() {
        give_one(folder, taken);
    }
    files.destroy_empty();
}
