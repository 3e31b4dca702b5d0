//! A store of maps that outlives a restart, as a program over a script.
#![tactic(auto)]

ghost use Rattle.std.specs.Prelude.{◌≡◌, ◌≢◌};
ghost use Rattle.std.specs.declared.io.ErrorKind.TheVariants.{OutOfMemory};
ghost use Rattle.restart_load.specs.declared.ended.Ended.{Ended};
ghost use Rattle.store_serve.specs.declared.outcome.Outcome.{Outcome};

use hr_edges::{StdSink, StdSource};
use real_folder::RealFolder;
use std::io::BufWriter;
use std::process::ExitCode;
use std::{env, fs, io};
use store_drill::Ended;
use store_serve::{Outcome, serve, tell};

/// How many bytes of output are gathered before they are written.
const OUTPUT_LEN: usize = 65_536;

/// The words after the program's name.
fn program_words(rt: &HostRuntime) -> io::Result<Vec<String>> {
    let mut words = Vec::new(rt.alloc());
    for word in env::args(rt)?.skip(1) {
        words.push(word)?;
    }
    Ok(words)
}

/// What the program comes to where it can't have its words: there was no memory, or one of them is no text.
fn outcome_without_words(kind: io::ErrorKind) -> Outcome
    ensures memory { kind ≡ OutOfMemory → result ≡ Outcome.Ended Ended.Memory }
    ensures others { (kind ≢ OutOfMemory) → result ≡ Outcome.Words }
{
    match kind {
        io::ErrorKind::OutOfMemory => Outcome::Ended(Ended::Memory),
        _ => Outcome::Words,
    }
}

/// Prints the usage text on standard error. Where that fails there is nothing to be done about it.
fn print_usage(rt: &HostRuntime) {
    if let Ok(text) = command_words::usage(rt.alloc()) {
        let _ = eprint!(rt; "{text}");
    }
}

/// The folder that the first word names.
fn folder_named(rt: &HostRuntime, words: &[String]) -> io::Result<RealFolder<HostRuntime>> {
    let path = match words.first() {
        Some(word) => word.clone()?,
        None => String::new(rt.alloc()),
    };
    Ok(RealFolder::at(rt.clone()?, path))
}

/// The words, and the folder that they name.
fn words_and_folder(rt: &HostRuntime) -> io::Result<(Vec<String>, RealFolder<HostRuntime>)> {
    let words = program_words(rt)?;
    let folder = folder_named(rt, words.as_slice())?;
    Ok((words, folder))
}

/// Does what the words say, with a buffer for the output. The first error of the disk is printed on standard error.
fn serve_words(rt: &HostRuntime, out: &mut StdSink<BufWriter<io::Stdout>>) -> u8 {
    let (words, mut folder) = match words_and_folder(rt) {
        Ok(found) => found,
        Err(error) => return tell(rt.alloc(), outcome_without_words(error.kind()), out),
    };
    let mut input = StdSource::new(rt.stdin());
    let status = serve(rt.alloc(), words.as_slice(), &mut folder, &mut input, out);
    if status == 5 {
        if let Some(error) = folder.first_error() {
            let _ = eprintln!(rt; "{error}");
        }
    }
    status
}

/// Opens the null device three times. The system gives each file the lowest free number: where the program was started
/// without a standard stream, no chunk file gets that stream's number, as long as these files are open.
fn stand_ins(rt: &HostRuntime) -> [io::Result<fs::File>; 3] {
    [
        fs::File::open(rt, "/dev/null"),
        fs::File::open(rt, "/dev/null"),
        fs::File::open(rt, "/dev/null"),
    ]
}

fn main(rt: HostRuntime) -> ExitCode {
    let _stand_ins = stand_ins(&rt);
    let status = match BufWriter::with_capacity(rt.alloc(), OUTPUT_LEN, rt.stdout()) {
        Ok(buffer) => {
            let mut out = StdSink::new(buffer);
            let status = serve_words(&rt, &mut out);
            match out.flush() {
                Ok(()) => status,
                Err(_) => 4,
            }
        }
        Err(_) => tell(
            rt.alloc(),
            Outcome::Ended(Ended::Memory),
            &mut StdSink::new(rt.stdout()),
        ),
    };
    if status == 1 {
        print_usage(&rt);
    }
    ExitCode::from(status)
}
