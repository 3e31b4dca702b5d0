//! The names of the chunk files in a folder.

ghost use Rattle.std.specs.Prelude.{◌≡◌, ◌≤◌, ◌<◌, true, All, Contains, IfOk, IfSome, IfNone, IsErrOf, OnErr, OnOk};
ghost use Rattle.hr_base.specs.Counts.{Rose};
ghost use Rattle.hr_base.specs.declared.name.ChunkName.{ChunkName};
ghost use Rattle.hr_base.specs.Names.{IsChunkName, IsUpTo};
ghost use Rattle.dir_files.specs.Images.{KeepsImages};
ghost use Rattle.dir_files.specs.Ports.{IsListing};
ghost use Rattle.dir_files.specs.PortStates.{IsCalm, IsGivenBack};
ghost use Rattle.restart_load.specs.Contents.{InNameOrder};
ghost use Rattle.restart_load.specs.Taking.{AllNamed};

use dir_files::{Folder, FolderRefusal};
use hr_base::ChunkName;

/// Makes the folder's names durable, and gives those of its chunk files in order.
pub(crate) fn list_names<F: Folder>(folder: &mut F) -> Result<Vec<ChunkName>, FolderRefusal>
    requires calm { F.tells ≡ true → IsCalm (F.port folder.old) }
    ensures valid { IfOk result (λ names. All IsChunkName names.items) }
    ensures sorted { IfOk result (λ names. InNameOrder names.items) }
    ensures listed { F.tells ≡ true → IfOk result (λ names. IsListing (F.port folder.new) names.items) }
    ensures given_back { F.tells ≡ true → OnOk result (IsGivenBack (F.port folder.new)) }
    ensures named { F.tells ≡ true → OnOk result (AllNamed (F.port folder.new)) }
    ensures calm { F.tells ≡ true → IsCalm (F.port folder.new) }
    ensures images { F.tells ≡ true → KeepsImages (F.port folder.old) (F.port folder.new) }
    ensures fault { IsErrOf result FolderRefusal.Fault → Rose (F.count folder.old) (F.count folder.new) }
    ensures kept { F.count folder.old ≤ F.count folder.new }
{
    folder.sync_names()?;
    let mut names = folder.names()?;
    names.sort_unstable();
    Ok(names)
}

/// The first of the names whose partition is none of so many.
pub(crate) fn first_stray(names: &[ChunkName], partitions: u8) -> Option<ChunkName>
    requires sorted { InNameOrder names.now }
    ensures stray { IfSome result (λ name. Contains names.now name × (partitions ≤ name.partition.0)) }
    ensures first { IfSome result (λ name. All (λ other. (partitions ≤ other.partition.0) → IsUpTo name other) names.now) }
    ensures none { IfNone result (All (λ name. name.partition.0 < partitions) names.now) }
{
    for name in names {
        if name.partition.0 >= partitions {
            return Some(*name);
        }
    }
    None
}
