//! The program `canely`: it gives its arguments to the call of the command that they name, and ends
//! with that call's status.
#![tactic(auto)]

mod complaint;
mod help;
mod version;

use cany_check::check_top;
use cany_command::status::{DONE, NO_MEMORY, OTHER_WORDS, WRITE_FAULT};
use cany_crew::{free_gates, run_top};
use cany_io::{Failed, Sink, Source, StdSink, StdSource, write_whole};
use cany_media::media_top;
use cany_replay::{replay_top, storm_top};
use cany_replica::replica_top;
use cany_settle::tail_top;
use cany_watch::watch_top;
use std::alloc::{AllocError, Global};
use std::io::{BufWriter, Write};
use std::process::ExitCode;
use std::sync::Wait;
use std::thread::Threads;
use std::{env, io};

/// How many bytes of output are kept until they go to standard output together.
const BUFFER_BYTES: usize = 65536;

/// Why there are no arguments to look at.
#[derive(Clone, Copy, Debug, PartialEq, Eq)]
enum ArgsFault {
    Memory,
    /// One of them is not valid UTF-8.
    NotText,
}

impl From<io::Error> for ArgsFault {
    fn from(error: io::Error) -> ArgsFault {
        if error.kind() == io::ErrorKind::OutOfMemory {
            ArgsFault::Memory
        } else {
            ArgsFault::NotText
        }
    }
}

impl From<AllocError> for ArgsFault {
    fn from(_: AllocError) -> ArgsFault {
        ArgsFault::Memory
    }
}

/// The arguments after the program's name.
fn args_of(rt: &HostRuntime) -> Result<Vec<String>, ArgsFault> {
    let mut args = env::args(rt)?;
    let _program = args.next();
    Ok(args.collect(rt.alloc())?)
}

/// The text that the arguments ask for, where they are one word for the help or for the version.
fn text_for(alloc: Global, args: &[String]) -> Result<Option<String>, AllocError> {
    match args {
        [arg] => match arg.as_str() {
            "--help" | "-h" | "help" => Ok(Some(help::help(alloc)?)),
            "--version" => Ok(Some(version::version(alloc)?)),
            _ => Ok(None),
        },
        _ => Ok(None),
    }
}

/// The command `run`, with gates that never refuse.
fn run_freely<R: Threads + Wait + Sync, S: Source, K: Sink>(
    threads: &R,
    alloc: Global,
    args: &[String],
    source: &mut S,
    sink: &mut K,
) -> u8 {
    match free_gates(alloc) {
        Ok(mut gates) => run_top(threads, alloc, args, source, sink, &mut gates),
        Err(_) => NO_MEMORY,
    }
}

/// Gives the arguments to the call of the command that the first of them names. Where it names
/// none, the call for `replay` answers that.
fn command<R: Threads + Wait + Sync, K: Sink>(
    rt: &HostRuntime,
    threads: &R,
    args: &[String],
    sink: &mut K,
) -> u8 {
    let alloc = rt.alloc();
    let mut source = StdSource::new(rt.stdin());
    match args {
        [arg, ..] if arg.as_str() == "check" => check_top(alloc, args, &mut source, sink),
        [arg, ..] if arg.as_str() == "storm" => storm_top(alloc, args, sink),
        [arg, ..] if arg.as_str() == "media" => media_top(alloc, args, &mut source, sink),
        [arg, ..] if arg.as_str() == "run" => run_freely(threads, alloc, args, &mut source, sink),
        [arg, ..] if arg.as_str() == "replica" => replica_top(alloc, args, &mut source, sink),
        [arg, ..] if arg.as_str() == "tail" => tail_top(alloc, args, &mut source, sink),
        [arg, ..] if arg.as_str() == "watch" => watch_top(threads, alloc, args, &mut source, sink),
        _ => replay_top(alloc, args, &mut source, sink),
    }
}

fn print(rt: &HostRuntime, text: &str) -> u8 {
    match write_whole(&mut StdSink::new(rt.stdout()), text.as_bytes()) {
        Ok(()) => DONE,
        Err(Failed) => WRITE_FAULT,
    }
}

/// Does what the arguments say, and answers the status. The runtime is the one value that can make
/// threads.
fn run<R: Threads + Wait + Sync>(rt: &HostRuntime, threads: &R, args: &[String]) -> u8 {
    match text_for(rt.alloc(), args) {
        Ok(Some(text)) => return print(rt, text.as_str()),
        Ok(None) => {}
        Err(AllocError) => return NO_MEMORY,
    }
    let Ok(mut out) = BufWriter::with_capacity(rt.alloc(), BUFFER_BYTES, rt.stdout()) else {
        return NO_MEMORY;
    };
    let status = command(rt, threads, args, &mut StdSink::new(&mut out));
    match out.flush() {
        Ok(()) => status,
        Err(_) => WRITE_FAULT,
    }
}

/// Writes a line to standard error. Where that fails too, the status alone tells.
fn print_error(rt: &HostRuntime, line: &str) {
    let _ = write_whole(&mut StdSink::new(rt.stderr()), line.as_bytes());
}

/// Says what went wrong, where there is no line for it on standard output.
fn complain(rt: &HostRuntime, status: u8, args: &[String]) {
    if let Some(line) = complaint::in_detail(rt.alloc(), status, args) {
        print_error(rt, line.as_str());
    } else if let Some(line) = complaint::in_general(status) {
        print_error(rt, line);
    }
}

/// Says why there are no arguments to look at, and answers the status.
fn without_args(rt: &HostRuntime, fault: ArgsFault) -> u8 {
    match fault {
        ArgsFault::Memory => {
            complain(rt, NO_MEMORY, &[]);
            NO_MEMORY
        }
        ArgsFault::NotText => {
            print_error(rt, complaint::NOT_TEXT);
            OTHER_WORDS
        }
    }
}

fn main(rt: HostRuntime) -> ExitCode {
    let status = match args_of(&rt) {
        Ok(args) => {
            let status = run(&rt, &rt, &args);
            complain(&rt, status, &args);
            status
        }
        Err(fault) => without_args(&rt, fault),
    };
    ExitCode::from(status)
}
