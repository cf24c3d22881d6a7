//! Sessions, and whether a new workbench answers them as is wanted.
//!
//! Standard input has the names of sessions, one a line. The commands of NAME are the file `NAME.session`, below the
//! folder that the program runs in, and the answers that are wanted the file `NAME.answers`. A line for each session
//! tells that it is answered as is wanted, or where the answers differ first. The status is 0 where all are, and else 1
//! (own).
#![tactic(auto)]

mod difference;
mod pieces;

use difference::first_difference;
use pieces::Pieces;
use pli_base::Device;
use pli_bench::Bench;
use std::alloc::Global;
use std::fs;
use std::io::{self, Cursor};
use std::process::ExitCode;

/// The steps of a bare RUN.
const STEPS: u64 = 1_000_000;

/// The greatest number of reads.
const READS: u64 = 1_000_000;

/// How many bytes at most a read and a write move; the answers are to be the same for each.
const MOST: usize = 4096;

/// How few they are for a session besides, by the length of its name.
static FEW: [usize; 4] = [1, 2, 3, 7];

/// The answers of a new workbench to a session, where no read or write moves more than `most` bytes.
fn answers(alloc: Global, session: &[u8], most: usize) -> io::Result<Vec<u8>> {
    let mut reader = Device::over(Pieces::new(Cursor::new(session), most));
    let mut writer = Device::over(Pieces::new(Vec::new(alloc), most));
    match Bench::new(alloc, STEPS).serve(&mut reader, &mut writer, READS) {
        Ok(_) => Ok(writer.into_inner().inner),
        Err(_) => Err(io::Error::other("not served to its end")),
    }
}

/// Whether the answers to a session are those wanted; tells where they differ first, if they are not.
fn is_answered(
    rt: &HostRuntime,
    name: &str,
    session: &[u8],
    wanted: &[u8],
    most: usize,
) -> io::Result<bool> {
    let found = answers(rt.alloc(), session, most)?;
    match first_difference(wanted, &found) {
        Some(difference) => {
            println!(rt; "{name}: in pieces of {most}, {difference}")?;
            Ok(false)
        }
        None => Ok(true),
    }
}

/// The bytes of the file of that name with this ending.
fn read(rt: &HostRuntime, name: &str, ending: &str) -> io::Result<Vec<u8>> {
    fs::read(rt, format!(in rt.alloc(); "{name}.{ending}")?)
}

/// Whether the session of that name is answered as is wanted, in pieces of many bytes and of few, which is told.
fn serves(rt: &HostRuntime, name: &str) -> io::Result<bool> {
    let session = read(rt, name, "session")?;
    let wanted = read(rt, name, "answers")?;
    for most in [FEW[name.len() % FEW.len()], MOST] {
        if !is_answered(rt, name, &session, &wanted, most)? {
            return Ok(false);
        }
    }
    println!(rt; "{name}: as wanted")?;
    Ok(true)
}

/// Whether all sessions whose names come from standard input are answered as is wanted; tells of each.
fn serves_all(rt: &HostRuntime) -> io::Result<bool> {
    let mut all = true;
    for name in rt.lines(rt.alloc()) {
        let name = name?;
        match serves(rt, &name) {
            Ok(served) => all = all && served,
            Err(error) => {
                println!(rt; "{name}: {error}")?;
                all = false;
            }
        }
    }
    Ok(all)
}

fn main(rt: HostRuntime) -> ExitCode {
    match serves_all(&rt) {
        Ok(true) => ExitCode::SUCCESS,
        Ok(false) | Err(_) => ExitCode::FAILURE,
    }
}
