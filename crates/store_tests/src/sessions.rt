//! What the program does over a folder in memory. The rows and the scripts are played as `test_rows` says.

use crate::disk::MemDisk;
use std::test::Fail;
use test_rows::drawn::{crash_all, stop_all};
use test_rows::expecting::expect;
use test_rows::restarts::check_restarts;
use test_rows::session_rows::play_rows;
use test_rows::stops::{CLEARINGS, Session, check_sound};

/// Rows of sessions with faults. `session_rows` has their form.
const TABLE: &str = "\
= one byte a read and seven a write
play 0 put 5 k1 v1;0 sync;0 get 5 k1;
prints 0 0 none;0 synced;0 is v1;
holds p00-v-1 28
= one byte a read and a write
most 1
play 0 put 5 k1 v1;0 sync;0 get 5 k1;
prints 0 0 none;0 synced;0 is v1;
= the first read fails
source 1
play 0 put 5 k1 v1;0 sync;0 get 5 k1;
prints 3 refused input;
holds p00-v-1 -
= the last read fails, before the folder is asked
fails 0 1 on
source 33
play 0 put 5 k1 v1;0 sync;0 get 5 k1;
prints 3 refused input;
faults 0
= the first write fails
sink 1
play 0 put 5 k1 v1;0 sync;0 get 5 k1;
prints 4 
holds p00-v-1 28
= the second write fails
sink 2
play 0 put 5 k1 v1;0 sync;0 get 5 k1;
prints 4 0 none;
holds p00-v-1 28
= the sink takes nothing, though the put was done
room 0
play 0 put 5 k1 v1;0 sync;0 get 5 k1;
prints 4 
holds p00-v-1 28
= the sink takes no byte in a write
most 0
play 0 get 5 k1;
prints 4 
= the sink has room for three bytes
room 3
play 0 put 5 k1 v1;0 sync;0 get 5 k1;
prints 4 0 n
holds p00-v-1 28
= the sink fails in the last line of a bad script
room 10
play 0 synk;
prints 4 refused li
= the folder fails in its directory sync
fails 0 1 on
play 0 put 5 k1 v1;0 sync;0 get 5 k1;
prints 5 refused disk;
faults 1
holds p00-v-1 -
= the folder fails in its listing
fails 0 2 on
play 0 put 5 k1 v1;0 sync;0 get 5 k1;
prints 5 refused disk;
faults 1
holds p00-v-1 -
= an empty folder is asked no third time
fails 0 3 on
play 0 put 5 k1 v1;0 sync;0 get 5 k1;
prints 0 0 none;0 synced;0 is v1;
= the disk fails, and then the sink
fails 1 4 on
room 10
play 0 put 5 k1 v1;0 sync;0 get 5 k1;
prints 4 0 none;ref
faults 1
= the least after a failed directory sync
fails 1 4 on
play 0 put 5 k1 v1;0 sync;
prints 5 0 none;refused disk;
crash least
holds p00-v-1 -
dump
prints 0 
= the most after a failed directory sync
fails 1 4 on
play 0 put 5 k1 v1;0 sync;
prints 5 0 none;refused disk;
crash most
dump
prints 0 0 5 k1 v1;
= the least after a sync, where a fifth call would fail
fails 1 5 on
play 0 put 5 k1 v1;0 sync;
prints 0 0 none;0 synced;
crash least
holds p00-v-1 28
= another partition goes on after no fault of the first
fails 2 1 on
play 0 put 5 k1 v1;0 sync;1 get 5 k1;1 put 5 k1 v1;0 sync;
prints 5 0 none;0 synced;1 none;refused disk;
faults 1
holds p00-v-1 28 p01-v-1 -
= a dump is cut where the sink fails
play 0 put 7 a 1;0 put 7 b 2;0 sync;
fails 0 999 on
room 0
dump
prints 4 
room 5
dump
prints 4 0 7 a
room 15
dump
prints 4 0 7 a 1;0 7 b 2
room 16
dump
prints 0 0 7 a 1;0 7 b 2;
holds p00-v-1 52
= the first file is not created
fails 1 1 alone
play 0 put 5 k1 v1;0 sync;
prints 5 refused disk;
holds p00-v-1 -
= the first record is torn
fails 1 2 alone
play 0 put 5 k1 v1;0 sync;
prints 5 refused disk;
holds p00-v-1 14
crash most
play 0 put 5 k1 w1;0 sync;
prints 0 0 none;0 synced;
holds p00-v-1 14 p00-v-2 28
dump
prints 0 0 5 k1 w1;
= the second record is torn
fails 1 3 alone
play 0 put 5 k1 v1;0 put 5 k1 v2;0 sync;
prints 5 0 none;refused disk;
holds p00-v-1 42
= the file of tombstones is not created
fails 1 4 alone
play 0 put 5 k1 v1;0 put 5 k1 v2;0 remove 5 k1;0 sync;
prints 5 0 none;0 was v1;refused disk;
holds p00-v-1 56 p00-t-2 -
= the tombstone is torn
fails 1 5 alone
play 0 put 5 k1 v1;0 put 5 k1 v2;0 remove 5 k1;0 sync;
prints 5 0 none;0 was v1;refused disk;
holds p00-v-1 56 p00-t-2 11
= a value behind a tombstone is torn
fails 1 6 alone
play 0 put 5 k1 v1;0 put 5 k1 v2;0 remove 5 k1;0 put 2 c q;0 sync;
prints 5 0 none;0 was v1;0 was v2;refused disk;
holds p00-v-1 69 p00-t-2 22
= the file of prefix tombstones is not created
fails 1 7 alone
play 0 put 5 k1 v1;0 put 5 k1 v2;0 remove 5 k1;0 put 2 c q;0 clear 2;0 sync;
prints 5 0 none;0 was v1;0 was v2;0 none;refused disk;
holds p00-v-1 82 p00-t-2 22 p00-x-3 -
= the prefix tombstone is torn
fails 1 8 alone
play 0 put 5 k1 v1;0 put 5 k1 v2;0 remove 5 k1;0 put 2 c q;0 clear 2;0 sync;
prints 5 0 none;0 was v1;0 was v2;0 none;refused disk;
holds p00-v-1 82 p00-t-2 22 p00-x-3 8
= the values are not synced
fails 1 9 alone
play 0 put 5 k1 v1;0 put 5 k1 v2;0 remove 5 k1;0 put 2 c q;0 clear 2;0 sync;
prints 5 0 none;0 was v1;0 was v2;0 none;0 cleared 1;refused disk;
holds p00-v-1 82 p00-t-2 22 p00-x-3 16
= the names are not synced
fails 1 12 alone
play 0 put 5 k1 v1;0 put 5 k1 v2;0 remove 5 k1;0 put 2 c q;0 clear 2;0 sync;
prints 5 0 none;0 was v1;0 was v2;0 none;0 cleared 1;refused disk;
holds p00-v-1 82 p00-t-2 22 p00-x-3 16
= a second sync makes no call
fails 1 13 on
play 0 put 5 k1 v1;0 put 5 k1 v2;0 remove 5 k1;0 put 2 c q;0 clear 2;0 sync;0 sync;
prints 0 0 none;0 was v1;0 was v2;0 none;0 cleared 1;0 synced;0 synced;
faults 0
= what writes nothing makes no call
fails 1 1 on
play 0 remove 5 k1;0 clear 5;0 get 5 k1;0 sync;
prints 0 0 none;0 cleared 0;0 none;0 synced;
faults 0
";

#[test]
fn faults_are_told_by_the_table(rt: HostRuntime) -> Result<(), Fail> {
    play_rows::<MemDisk>(rt.alloc(), TABLE)
}

#[test]
fn drawn_scripts_survive_crashes(rt: HostRuntime) -> Result<(), Fail> {
    crash_all::<MemDisk>(rt.alloc())
}

/// Two crashes, with a session between them that the disk stops.
#[test]
fn stopped_sessions_survive_crashes(rt: HostRuntime) -> Result<(), Fail> {
    stop_all::<MemDisk>(rt.alloc())
}

/// Before a session over an empty folder the root makes its names durable, and lists them. The first writer makes a call
/// for each of some twenty records, files and syncs.
#[test]
fn each_call_of_the_root_and_a_first_writer_may_fail(rt: HostRuntime) -> Result<(), Fail> {
    let session = Session::new(rt.alloc())?;
    check_sound::<MemDisk>(&session)?;
    expect(session.check_calls::<MemDisk>(0)? == 2, "calls of the root")?;
    expect(
        session.check_calls::<MemDisk>(1)? > 20,
        "calls of a first writer",
    )
}

/// At least one call for each record of some 500.
#[test]
fn each_call_of_a_second_writer_may_fail(rt: HostRuntime) -> Result<(), Fail> {
    let session = Session::new(rt.alloc())?;
    let calls = session.check_calls::<MemDisk>(2)?;
    expect(
        calls > CLEARINGS.saturating_mul(2),
        "calls of a second writer",
    )
}

#[test]
fn each_call_of_a_restart_may_fail(rt: HostRuntime) -> Result<(), Fail> {
    check_restarts::<MemDisk>(rt.alloc())
}
