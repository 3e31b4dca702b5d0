//! Chunks that take no more records.

ghost use Rattle.std.specs.Prelude.{◌≡◌, ◌<◌, true, false, All, IsOk};
ghost use Rattle.std.specs.List.{AllZip};
ghost use Rattle.std.specs.VecDeque.{deque_capacity, deque_len};
ghost use Rattle.dir_files.specs.Faults.{is_fault};
ghost use Rattle.dir_files.specs.PortCalls.{CountsCall, LeavesPort};
ghost use Rattle.writer_files.specs.Hands.{AreOnce};
ghost use Rattle.writer_files.specs.HandCalls.{GivesEach, IsMarkedFrom, JoinsFull, SyncsEach};

use dir_files::{Folder, FolderRefusal};
use std::collections::VecDeque;
use value_chunk::Full;

/// Puts a chunk among the others by its name, where there is room for it.
pub(crate) fn place<F: Folder>(full: &mut VecDeque<Full<F>>, chunk: Full<F>)
    requires { deque_len full.old < deque_capacity full.old }
    ensures { JoinsFull full.old.items full.new.items chunk }
{
    let name = chunk.name();
    let at = full.partition_point(|other| other.name() < name);
    match full.insert(at, chunk) {
        Ok(()) => {}
        Err(_refused) => unreachable!(),
    }
}

/// Makes the bytes of each file durable, of one after another until the folder refuses one.
pub(crate) fn sync_full<F: Folder>(
    full: &mut VecDeque<Full<F>>,
    port: &mut F,
) -> Result<(), FolderRefusal>
    ensures synced { SyncsEach F.tells result full.old.items full.new.items }
    ensures idle { All (λ chunk. chunk.unsynced ≡ false) full.old.items
        → IsOk result × (full.new.items ≡ full.old.items) × (port.new ≡ port.old) }
    ensures port { LeavesPort ⟦<F as Folder>⟧ (is_fault result) port.old port.new }
{
    sync_each(full.make_contiguous(), port)
}

/// Takes note of the names that the port says are durable.
pub(crate) fn mark_full<F: Folder>(full: &mut VecDeque<Full<F>>, port: &F)
    ensures { AllZip (IsMarkedFrom F.tells (F.port port.now).fixed) full.old.items full.new.items }
{
    mark_each(full.make_contiguous(), port);
}

/// Makes the bytes of each file in a slice durable, of one after another until the folder refuses one.
fn sync_each<F: Folder>(full: &mut [Full<F>], port: &mut F) -> Result<(), FolderRefusal>
    ensures synced { SyncsEach F.tells result full.old full.new }
    ensures idle { All (λ chunk. chunk.unsynced ≡ false) full.old
        → IsOk result × (full.new ≡ full.old) × (port.new ≡ port.old) }
    ensures port { LeavesPort ⟦<F as Folder>⟧ (is_fault result) port.old port.new }
{
    for chunk in full.iter_mut() {
        chunk.sync(port)?;
    }
    Ok(())
}

/// Takes note of the names in a slice that the port says are durable.
fn mark_each<F: Folder>(full: &mut [Full<F>], port: &F)
    ensures { AllZip (IsMarkedFrom F.tells (F.port port.now).fixed) full.old full.new }
{
    for chunk in full.iter_mut() {
        chunk.mark(port);
    }
}

/// Gives the file of each chunk back to the folder.
pub(crate) fn give_each<F: Folder>(mut full: VecDeque<Full<F>>, port: &mut F)
    requires { F.tells ≡ true → AreOnce full.items }
    ensures given { F.tells ≡ true → GivesEach (F.port port.old) (F.port port.new) full.items }
    ensures counts { CountsCall ⟦<F as Folder>⟧ false port.old port.new }
{
    while let Some(chunk) = full.pop_back() {
        chunk.give(port);
    }
    full.destroy_empty();
}
