//! A folder in memory, call by call, by a table of texts.

ghost use Rattle.std.specs.Prelude.{◌≡◌, true, IsSome};
ghost use Rattle.hr_base.specs.declared.name.ChunkName.{ChunkName};
ghost use Rattle.dir_files.specs.Ports.{IsFreeName};

use dir_files::Folder;
use hr_base::{ChunkName, Pick};
use mem_folder::MemFolder;
use std::alloc::Global;
use std::test::Fail;
use test_rows::calls::Place;
use test_rows::disks::{File, Stop};
use test_rows::folder_rows::{Telling, play_calls};

/// Rows of calls. `folder_rows` has their form.
const CALLS: &str = "\
= calls fail as planned
open 2 alone
names
!names
names
faults 1
= calls fail from one on
open 2 on
names
!names
!names
faults 2
= a failed creation leaves no file, and one of that name may follow
open 1 alone
!create p03-v-7
gone p03-v-7
list
create p03-v-7
give
list p03-v-7
holds p03-v-7
= of a failed append the first half is there
open 2 alone
create p03-v-7
!append abcde
append xyz
give
holds p03-v-7 abxyz
faults 1
= half of one byte is nothing
open 2 alone
create p03-v-7
!append a
give
holds p03-v-7
= a failed file sync makes nothing durable
open 3 alone
create p03-v-7
append abc
!sync
names
mark
give
crash least
holds p03-v-7
= a file sync makes durable what was there
open 9 on
create p03-v-7
append abc
sync
append de
names
mark
give
holds p03-v-7 abcde
crash least
holds p03-v-7 abc
= a failed sync of names makes none durable
open 2 alone
create p03-v-7
!names
give
crash least
gone p03-v-7
= a name is durable while its handle is out
open 9 on
create p03-v-7
!mark
names
mark
give
crash least
holds p03-v-7
= a file is read in pieces
open 9 on p03-v-7 abcdef
take p03-v-7
gone p03-v-7
read 0 4
got abcd
read 4 4
got ef..
read 3 2
got de..
read 6 4
got ....
read 9 4
got ....
read 2 0
got ....
give
holds p03-v-7 abcdef
= a failed take gives nothing
open 1 alone p03-v-7 abcdef
!take p03-v-7
holds p03-v-7 abcdef
= a failed read moves nothing
open 2 alone p03-v-7 abcdef
take p03-v-7
!read 0 4
got ....
give
= a removed file is not there, and may come back
open 9 on p03-v-7 abcdef
take p03-v-7
remove
gone p03-v-7
list
crash most
holds p03-v-7 abcdef
= the least has no removed file
open 9 on p03-v-7 abcdef
take p03-v-7
remove
crash least
gone p03-v-7
= a removal is made durable
open 9 on p03-v-7 abcdef
take p03-v-7
remove
names
crash most
gone p03-v-7
= a failed removal removes
open 2 alone p03-v-7 abcdef
take p03-v-7
!remove
gone p03-v-7
faults 1
crash most
holds p03-v-7 abcdef
";

/// A folder with all sorts of files. `t` is held, and its front is 3; `u` is removed for good; `v` is held without a durable
/// name, and its front is 2; `w` and `x` are removed, with the fronts 3 and 0; `y` is held without a durable name, and its
/// front is 0.
const VARIED: &str = "\
open 99 on p00-t-1 abc
create p00-u-1
append old
sync
give
create p00-w-1
append xyz
sync
give
names
take p00-u-1
remove
names
take p00-t-1
append defgh
give
create p00-v-1
append 12
sync
append 345
give
take p00-w-1
append uvw
remove
create p00-x-1
append klmnop
remove
create p00-y-1
append qrstu
give
";

/// What crashes leave of it. That of the mixtures was worked out apart.
const CRASHES: [&str; 4] = [
    "\
crash least
holds p00-t-1 abc
list p00-t-1",
    "\
crash most
holds p00-t-1 abcdefgh
holds p00-v-1 12345
holds p00-w-1 xyzuvw
holds p00-x-1 klmnop
holds p00-y-1 qrstu
list p00-t-1 p00-v-1 p00-w-1 p00-x-1 p00-y-1",
    "\
crash mix 1
holds p00-t-1 abcd
holds p00-v-1 12
list p00-t-1 p00-v-1",
    "\
crash mix 5
holds p00-t-1 abcde
holds p00-v-1 1234
holds p00-x-1
holds p00-y-1 qrs
list p00-t-1 p00-v-1 p00-x-1 p00-y-1",
];

/// The ports of a folder in memory.
struct Memory;

impl Place for Memory {
    type Port = MemFolder;

    fn may_take(port: &MemFolder, name: ChunkName) -> bool {
        port.bytes(name).is_some()
    }

    fn may_create(port: &MemFolder, name: ChunkName) -> bool {
        port.is_free(name)
    }

    /// No row adopts a fork.
    fn may_adopt(_port: &MemFolder, _fork: &MemFolder) -> bool {
        false
    }
}

impl Telling for Memory {
    fn open(alloc: Global, stop: Stop, file: Option<File>) -> Result<MemFolder, Fail> {
        let plans = stop.plans(alloc)?;
        match file {
            None => Ok(MemFolder::empty(alloc, plans)),
            Some(file) => Ok(MemFolder::of(alloc, vec![in alloc; file]?, plans)?),
        }
    }

    fn crash(port: MemFolder, pick: Pick) -> Result<MemFolder, Fail> {
        if port.lends() {
            return Err("a file is lent".into());
        }
        Ok(port.crash(pick))
    }

    fn bytes(port: &MemFolder, name: ChunkName) -> Option<&[u8]> {
        port.bytes(name)
    }
}

#[test]
fn calls_of_a_folder_go_by_the_table(rt: HostRuntime) -> Result<(), Fail> {
    play_calls::<Memory>(rt.alloc(), "", CALLS)
}

#[test]
fn a_crash_has_the_picked_outcome(rt: HostRuntime) -> Result<(), Fail> {
    for row in CRASHES {
        play_calls::<Memory>(rt.alloc(), VARIED, row)?;
    }
    Ok(())
}
