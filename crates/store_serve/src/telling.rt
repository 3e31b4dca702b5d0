//! The last line and the status of the program.

ghost use Rattle.std.specs.Prelude.{◌≡◌, ◌≤◌, ◌⊎◌, ◌++◌, [], IfOk, IsOk, OnErr, OnOk, decimal, codes};
ghost use Rattle.hr_base.specs.Names.{IsChunkName, name_text};
ghost use Rattle.hr_base.specs.Counts.{Rose};
ghost use Rattle.hr_edges.specs.Edges.{TakesAll, TakesFront};
ghost use Rattle.restart_load.specs.declared.ended.Ended.{Ended};
ghost use Rattle.restart_load.specs.Refusals.{IsPrintable};
ghost use Rattle.store_serve.specs.declared.outcome.Outcome.{Outcome};
ghost use Rattle.store_serve.specs.Outcome.{Tells, IsTellable, last_line, refusal_text, status_of};

use crate::outcome::Outcome;
use hr_base::print_name;
use hr_edges::{Sink, write_all};
use itoa::Buffer;
use std::alloc::{AllocError, Global};
use store_drill::{Ended, RestartRefusal};

/// The status that tells an outcome.
fn status(outcome: Outcome) -> u8
    ensures { result ≡ status_of outcome }
{
    match outcome {
        Outcome::Ended(Ended::Whole) => 0,
        Outcome::Words => 1,
        Outcome::TooLong => 2,
        Outcome::BadLine { number: _ } => 2,
        Outcome::Input => 3,
        Outcome::Ended(Ended::Sink) => 4,
        Outcome::Ended(Ended::Disk) => 5,
        Outcome::Ended(Ended::Load(_)) => 6,
        Outcome::Ended(Ended::Memory) => 7,
        Outcome::Ended(Ended::Spent { next: _ }) => 8,
    }
}

/// A line of a text with a part of its own.
fn line_with(alloc: Global, front: &[u8], part: &[u8]) -> Result<Vec<u8>, AllocError>
    ensures { IfOk result (λ line. line.items ≡ front.now ++ part.now ++ codes "\n") }
{
    let mut line = Vec::from_slice(alloc, front)?;
    line.extend_from_slice(part)?;
    line.extend_from_slice(b"\n")?;
    Ok(line)
}

/// A line of a text with a number.
fn line_with_number(alloc: Global, front: &[u8], number: u64) -> Result<Vec<u8>, AllocError>
    ensures { IfOk result (λ line. line.items ≡ front.now ++ decimal number ++ codes "\n") }
{
    let mut buffer = Buffer::new();
    line_with(alloc, front, buffer.format(number).as_bytes())
}

/// A line of a text with two parts of its own.
fn line_with_two(
    alloc: Global,
    front: &[u8],
    part: &[u8],
    number: u64,
) -> Result<Vec<u8>, AllocError>
    ensures { IfOk result (λ line. line.items
        ≡ front.now ++ part.now ++ codes " " ++ decimal number ++ codes "\n") }
{
    let mut buffer = Buffer::new();
    let mut line = Vec::from_slice(alloc, front)?;
    line.extend_from_slice(part)?;
    line.extend_from_slice(b" ")?;
    line.extend_from_slice(buffer.format(number).as_bytes())?;
    line.extend_from_slice(b"\n")?;
    Ok(line)
}

/// The line that tells what is wrong with a folder.
fn refusal_line(alloc: Global, refusal: RestartRefusal) -> Result<Vec<u8>, AllocError>
    requires { IsPrintable refusal }
    ensures { IfOk result (λ line. line.items ≡ refusal_text refusal) }
{
    match refusal {
        RestartRefusal::Memory => Vec::from_slice(alloc, b"refused memory\n"),
        RestartRefusal::DiskFault => Vec::from_slice(alloc, b"refused disk\n"),
        RestartRefusal::Partition { name } => {
            line_with(alloc, b"refused partition ", &print_name(name))
        }
        RestartRefusal::TooLarge { name } => {
            line_with(alloc, b"refused too-large ", &print_name(name))
        }
        RestartRefusal::Damaged { name, at } => {
            line_with_two(alloc, b"refused damaged ", &print_name(name), at)
        }
        RestartRefusal::Clash { partition, seq } => {
            let mut buffer = Buffer::new();
            let part = buffer.format(partition.0);
            line_with_two(alloc, b"refused clash ", part.as_bytes(), seq.0)
        }
    }
}

/// The line that is written last.
fn text(alloc: Global, outcome: Outcome) -> Result<Vec<u8>, AllocError>
    requires { IsTellable outcome }
    ensures line { IfOk result (λ line. line.items ≡ last_line outcome) }
    ensures nothing { last_line outcome ≡ [] → IsOk result }
{
    match outcome {
        Outcome::Ended(Ended::Whole) => Ok(Vec::new(alloc)),
        Outcome::Words => Ok(Vec::new(alloc)),
        Outcome::TooLong => Vec::from_slice(alloc, b"refused too long\n"),
        Outcome::BadLine { number } => line_with_number(alloc, b"refused line ", number),
        Outcome::Input => Vec::from_slice(alloc, b"refused input\n"),
        Outcome::Ended(Ended::Sink) => Ok(Vec::new(alloc)),
        Outcome::Ended(Ended::Disk) => Vec::from_slice(alloc, b"refused disk\n"),
        Outcome::Ended(Ended::Load(refusal)) => refusal_line(alloc, refusal),
        Outcome::Ended(Ended::Memory) => Vec::from_slice(alloc, b"refused memory\n"),
        Outcome::Ended(Ended::Spent { next }) => line_with_number(alloc, b"refused spent ", next),
    }
}

/// Writes the last line, and answers the status.
pub fn tell<K: Sink>(alloc: Global, outcome: Outcome, out: &mut K) -> u8
    requires { IsTellable outcome }
    ensures told { Tells outcome result (K.taken out.old) (K.taken out.new) }
    ensures silent { last_line outcome ≡ [] → result ≡ status_of outcome }
    ensures untouched { last_line outcome ≡ [] → out.new ≡ out.old }
    ensures sink { result ≡ 4
        → (outcome ≡ Outcome.Ended Ended.Sink) ⊎ Rose (K.count out.old) (K.count out.new) }
    ensures kept { K.count out.old ≤ K.count out.new }
{
    match text(alloc, outcome) {
        Ok(line) => {
            if line.is_empty() {
                return status(outcome);
            }
            match write_all(out, line.as_slice()) {
                Ok(()) => status(outcome),
                Err(_) => 4,
            }
        }
        Err(_) => match write_all(out, b"refused memory\n") {
            Ok(()) => 7,
            Err(_) => 4,
        },
    }
}
