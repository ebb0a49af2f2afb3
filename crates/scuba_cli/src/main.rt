//! The program: `scuba DIR WORD..`.
#![tactic(auto)]

ghost use Rattle.std.specs.Prelude.{IfOk};
ghost use Rattle.std.specs.List.{AllByRecursion};
ghost use Rattle.play.specs.Played.{AreBases};
ghost use Rattle.scuba_cli.specs.Fresh.{IsEmptyBerth};

use berth_face::{Berth, OpenGate};
use berth_files::{Access, FileBerth, FolderFiles};
use berth_mem::MemBerth;
use command_line::{ended, read_line, refusal_status};
use play::{Bases, EmptyBerths, Status, run};
use rollover_watch::{CountWatch, Watch};
use std::alloc::{AllocError, Global};
use std::io;
use std::marker::Brand;
use std::process::ExitCode;
use std::sync::Wait;
use std::thread::Threads;
use std_streams::{StdSink, StdSource};

/// The most leaves that have a berth.
const BERTHS: u32 = 256;

fn main(rt: HostRuntime) -> ExitCode {
    let line = match read_line(&rt) {
        Ok(line) => line,
        Err(refusal) => return ended(&rt, &refusal_status(refusal)),
    };
    let words = line.words.as_slice();
    match line.folder.as_str() {
        "mem" => serve::<EmptyBerths, _, _>(&rt, words, fresh_berths(rt.alloc())),
        folder => serve::<Brand, _, _>(&rt, words, file_berths(rt, folder, access(words))),
    }
}

/// Does what the words say over these berths, whose known bases N tells. If it was not done, says why.
fn serve<
    N: Bases,
    R: AllocGlobal + Input + Print + Eprint + Wait + Threads + Sync,
    B: Berth + Drop,
>(rt: &R, words: &[String], berths: Result<Vec<B>, AllocError>) -> ExitCode
    requires { IfOk berths (λ berths. AreBases N.base B.meaning berths.items) }
{
    let Ok(mut berths) = berths else {
        return ended(rt, &Status::NoMemory);
    };
    let Ok(count) = Box::new(rt.alloc(), CountWatch::new()) else {
        return ended(rt, &Status::NoMemory);
    };
    let mut watches: Vec<Box<dyn Watch>> = Vec::new(rt.alloc());
    if watches.push(count).is_err() {
        return ended(rt, &Status::NoMemory);
    }
    let mut source = StdSource::new(rt.reader());
    let mut sink = StdSink::new(io::writer(rt));
    let status = run::<N, R, _, _, B, OpenGate>(
        rt,
        rt.alloc(),
        words,
        &mut source,
        &mut sink,
        &mut berths,
        &OpenGate,
        &mut watches,
    );
    ended(rt, &status)
}

/// Berths in memory that hold nothing, and to which nothing was ever written.
fn fresh_berths(alloc: Global) -> Result<Vec<MemBerth>, AllocError>
    ensures { IfOk result (λ berths. AllByRecursion IsEmptyBerth berths.items) }
{
    let mut berths = Vec::with_capacity(alloc, BERTHS as usize)?;
    for _ in 0..BERTHS {
        berths.push(fresh_berth(alloc))?;
    }
    Ok(berths)
}

/// A berth in memory that holds nothing.
fn fresh_berth(alloc: Global) -> MemBerth
    ensures { IsEmptyBerth result }
{
    MemBerth::new(Vec::new(alloc), Vec::new(alloc))
}

/// How these words open files.
fn access(words: &[String]) -> Access {
    match words.first() {
        Some(word) if word.as_str() == "inspect" => Access::Look,
        _ => Access::Serve,
    }
}

/// Berths over the files of a folder, which are made where a leaf writes.
fn file_berths(
    rt: HostRuntime,
    folder: &str,
    access: Access,
) -> Result<Vec<FileBerth<FolderFiles>>, AllocError> {
    let mut berths = Vec::with_capacity(rt.alloc(), BERTHS as usize)?;
    for leaf in 0..BERTHS {
        berths.push(FileBerth::new(rt, folder, leaf, access)?)?;
    }
    Ok(berths)
}
