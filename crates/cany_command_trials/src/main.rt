//! Trials of the commands, by their public calls: what no clause says of them, and no scenario of
//! `scenarios/`. Each line of standard input is a trial, which is written with what came of it; one
//! that begins with # is a heading. The texts are files of `data/`. No crate stands on this one.
#![tactic(auto)]

mod command;
mod gates;
mod report;
mod slow;
mod trial;
mod two_lines;

use anyhow::Result;
use cany_media::MediaOutcome;
use std::fs;
use std::io::Write;
use std::sync::Wait;
use std::thread::Threads;
use trial::{Outcome, outcome_of};
use two_lines::outcome_over;

/// Writes what a command wrote, and then its status, and how often it read where that is counted.
fn tell(rt: &HostRuntime, outcome: &Outcome) -> Result<()> {
    rt.stdout().write_all(&outcome.taken)?;
    match outcome.reads {
        Some(reads) => println!(rt; "= status {}, reads {reads}", outcome.status)?,
        None => println!(rt; "= status {}", outcome.status)?,
    }
    Ok(())
}

/// Writes what comes of a slot over two lines: the number of the frame, and who sends it, as bits.
fn tell_slot(rt: &HostRuntime, outcome: MediaOutcome) -> Result<()> {
    match outcome {
        MediaOutcome::Idle => println!(rt; "= idle")?,
        MediaOutcome::Joined { frame, senders } => {
            println!(rt; "= joined {} from {}", frame.number, senders.bits())?;
        }
        MediaOutcome::Parted { frame, senders } => {
            println!(rt; "= parted {} from {}", frame.number, senders.bits())?;
        }
    }
    Ok(())
}

/// Makes the trial of a line: a command, its streams, the read and the write that fail, counted
/// from 1, the file of its text, and its words; or `levels`, the number of nodes, the two lines of
/// their bus, and their offers. The runtime is the one value that can make threads.
fn try_line<R: Threads + Wait + Sync>(rt: &HostRuntime, threads: &R, line: &str) -> Result<()> {
    let fields: Vec<&str> = line.split_whitespace().collect(rt.alloc())?;
    match fields.as_slice() {
        ["#", ..] | [] => Ok(()),
        ["levels", nodes, first, second, offers @ ..] => {
            tell_slot(rt, outcome_over(nodes, (first, second), offers)?)
        }
        [command, streams, read, write, file, words @ ..] => {
            let failing = [read.parse::<u32>()?, write.parse::<u32>()?];
            let text = fs::read(rt, file)?;
            tell(
                rt,
                &outcome_of(threads, rt.alloc(), command, streams, failing, text, words)?,
            )
        }
        _ => anyhow::bail!("no trial: {line}"),
    }
}

fn main(rt: HostRuntime) -> Result<()> {
    for line in rt.lines(rt.alloc()) {
        let line = line?;
        println!(rt; "{line}")?;
        try_line(&rt, &rt, line.as_str())?;
    }
    Ok(())
}
