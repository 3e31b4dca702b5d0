//! Reading chunk files whole.

ghost use Rattle.std.specs.Prelude.{◌≡◌, ◌≤◌, ◌<◌, ◌+◌, ◌++◌, true, All, IfErr, IfOk, IsErrOf, OnErr, OnOk, length, map, take};
ghost use Rattle.hr_base.specs.Counts.{Rose};
ghost use Rattle.hr_base.specs.declared.limits.TheConstants.{MAX_FILE_LEN};
ghost use Rattle.dir_files.specs.Faults.{CountsFault, is_fault};
ghost use Rattle.dir_files.specs.Ports.{SamePort};
ghost use Rattle.restart_load.specs.Reading.{IsFirstLarge, IsReadRefusal};
ghost use Rattle.restart_load.specs.Taking.{read_bytes};

use crate::contents::Contents;
use crate::refusal::RestartRefusal;
use crate::taking::Taken;
use dir_files::{Folder, FolderRefusal};
use hr_base::MAX_FILE_LEN;
use std::alloc::Global;

/// Reads bytes of a file, behind those that were read, by way of a piece of memory, and answers how many.
fn read_piece<F: Folder>(
    folder: &mut F,
    taken: &mut Taken<F>,
    bytes: &mut Vec<u8>,
    piece: &mut [u8],
) -> Result<usize, FolderRefusal>
    requires some { 0 < length piece.old }
    ensures read { F.tells ≡ true → OnOk result (bytes.old.items ≡ take (length bytes.old.items) taken.old.file.bytes
        → bytes.new.items ≡ take (length bytes.new.items) taken.old.file.bytes) }
    ensures more { IfOk result (λ count. length bytes.new.items ≡ length bytes.old.items + count) }
    ensures end { F.tells ≡ true → IfOk result (λ count. count ≡ 0 → length taken.old.file.bytes ≤ length bytes.old.items) }
    ensures piece { length piece.new ≡ length piece.old }
    ensures same_name { taken.new.name ≡ taken.old.name }
    ensures same { F.tells ≡ true → taken.new ≡ taken.old }
    ensures port { F.tells ≡ true → SamePort (F.port folder.old) (F.port folder.new) }
    ensures counts { CountsFault (is_fault result) (F.count folder.old) (F.count folder.new) }
{
    let at = bytes.len();
    let count = folder.read(&mut taken.file, at as u64, piece)?;
    bytes.extend_from_slice(&piece[..count])?;
    Ok(count)
}

/// Reads a file whole, by way of a piece of memory.
fn read_file<F: Folder>(
    alloc: Global,
    folder: &mut F,
    taken: &mut Taken<F>,
    piece: &mut [u8],
) -> Result<Contents, RestartRefusal>
    requires some { 0 < length piece.old }
    ensures piece { length piece.new ≡ length piece.old }
    ensures read { F.tells ≡ true → IfOk result (λ contents. contents ≡ read_bytes taken.old) }
    ensures name { IfOk result (λ contents. contents.name ≡ taken.old.name) }
    ensures small { IfOk result (λ contents. length contents.bytes ≤ MAX_FILE_LEN) }
    ensures refused { IfErr result (IsReadRefusal F.tells taken.old) }
    ensures same_name { taken.new.name ≡ taken.old.name }
    ensures same { F.tells ≡ true → taken.new ≡ taken.old }
    ensures port { F.tells ≡ true → SamePort (F.port folder.old) (F.port folder.new) }
    ensures count { OnOk result (F.count folder.new ≡ F.count folder.old) }
    ensures disk { IsErrOf result RestartRefusal.DiskFault → Rose (F.count folder.old) (F.count folder.new) }
    ensures kept { F.count folder.old ≤ F.count folder.new }
{
    let mut bytes = Vec::new(alloc);
    loop {
        if bytes.len() as u64 > MAX_FILE_LEN {
            return Err(RestartRefusal::TooLarge { name: taken.name });
        }
        let count = read_piece(folder, taken, &mut bytes, piece)?;
        if count == 0 {
            return Ok(Contents {
                name: taken.name,
                bytes,
            });
        }
    }
}

/// Reads all files whole, by way of a piece of memory.
pub(crate) fn read_files<F: Folder>(
    alloc: Global,
    folder: &mut F,
    files: &mut [Taken<F>],
    piece: &mut [u8],
) -> Result<Vec<Contents>, RestartRefusal>
    requires some { 0 < length piece.old }
    ensures read { F.tells ≡ true → IfOk result (λ contents. contents.items ≡ map read_bytes files.old) }
    ensures names { IfOk result (λ contents. map (λ one. one.name) contents.items ≡ map (λ taken. taken.name) files.old) }
    ensures small { IfOk result (λ contents. All (λ one. length one.bytes ≤ MAX_FILE_LEN) contents.items) }
    ensures refused { IfErr result (IsFirstLarge F.tells files.old) }
    ensures same_names { map (λ taken. taken.name) files.new ≡ map (λ taken. taken.name) files.old }
    ensures same { F.tells ≡ true → files.new ≡ files.old }
    ensures port { F.tells ≡ true → SamePort (F.port folder.old) (F.port folder.new) }
    ensures disk { IsErrOf result RestartRefusal.DiskFault → Rose (F.count folder.old) (F.count folder.new) }
    ensures kept { F.count folder.old ≤ F.count folder.new }
{
    let mut contents = Vec::with_capacity(alloc, files.len())?;
    for taken in files.iter_mut() {
        contents.push_reserved(read_file(alloc, folder, taken, piece)?);
    }
    Ok(contents)
}
