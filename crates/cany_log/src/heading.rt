//! What was run: the lines before those of the bus.
ghost use Rattle.std.specs.Prelude.{◌≡◌, ◌+◌, ◌*◌, ◌-◌, ◌≤◌, ◌++◌, [], List, drop, length};
ghost use Rattle.std.specs.List.{concat, flat_map, range_with_len};
ghost use Rattle.cany_base.specs.declared.step.Step.{Step as AnyStep};
ghost use Rattle.cany_log.specs.ReportItems.{journal_text, line_count};
ghost use Rattle.cany_text.specs.ReportLines as report;
ghost use Rattle.cany_log.specs.Written.{IsWritten};
ghost use Rattle.cany_world.specs.Journal.{Repeats};

use crate::line::{JOURNAL_LINE_BYTES, put_steps, write_line};
use crate::page::{PAGE_BYTES, Page, SHORT_LINES, write_page, write_page_times};
use crate::text_field::TextField;
use cany_base::{Format, Params, Step};
use cany_io::{Failed, Sink};

/// How many steps stand in a line of the journal.
const STEPS: usize = 64;

/// How many lines of the journal a page has at most where all its pages are the same.
const SAME_LINES: usize = 128;

/// Writes the line that begins a report.
#[tactic(auto, unfolding(cany_text::specs::ReportLines::first_line))]
pub(crate) fn write_first_line<K: Sink>(format: Format, sink: &mut K) -> Result<(), Failed>
    ensures { IsWritten (report.first_line format) result
        (K.taken sink.old) (K.taken sink.new) (K.faults sink.old) (K.faults sink.new) }
{
    write_line(
        "canely report",
        &[TextField::Number(u64::from(format.number()))],
        sink,
    )
}

/// Writes the line of the parameters.
#[tactic(auto, unfolding(cany_text::specs::ReportLines::params_line))]
pub(crate) fn write_params<K: Sink>(params: &Params, sink: &mut K) -> Result<(), Failed>
    ensures { IsWritten (report.params_line params.now) result
        (K.taken sink.old) (K.taken sink.new) (K.faults sink.old) (K.faults sink.new) }
{
    write_line(
        "params nodes",
        &[
            TextField::Number(u64::from(params.nodes)),
            TextField::Text("lag"),
            TextField::Number(u64::from(params.lag)),
            TextField::Text("omit"),
            TextField::Number(u64::from(params.omit)),
            TextField::Text("errors"),
            TextField::Number(u64::from(params.errors)),
            TextField::Text("bound"),
            TextField::Number(params.bound),
            TextField::Text("cycle"),
            TextField::Number(params.cycle),
            TextField::Text("life"),
            TextField::Number(params.life),
            TextField::Text("silence"),
            TextField::Number(params.silence),
            TextField::Text("confirm"),
            TextField::Number(params.confirm),
            TextField::Text("slots"),
            TextField::Number(params.slots),
        ],
        sink,
    )
}

/// Puts the lines of the journal from one number on to below another.
fn put_journal(journal: &[Step], first: usize, end: usize, page: &mut Page)
    requires order { (first ≤ end) × (end ≤ line_count journal.now) }
    requires room { length page.old + JOURNAL_LINE_BYTES * (end - first) ≤ PAGE_BYTES }
    ensures { page.new ≡ flat_map (journal_text journal.now) (drop first (range_with_len 0 end)) ++ page.old }
{
    let mut line = end;
    while line > first {
        line -= 1;
        let start = line * STEPS;
        put_steps(page, &journal[start..(start + STEPS).min(journal.len())]);
    }
}

/// How many lines a page has where the journal repeats itself after so many steps: the most that
/// are a multiple of the steps, so that all whole pages are the same. None where it is not known to
/// repeat itself.
fn same_lines(period: usize) -> usize
    ensures few { result ≤ 128 }
    ensures again { (journal : List AnyStep) → Repeats period journal → Repeats (64 * result) journal }
{
    if period == 0 {
        return 0;
    }
    SAME_LINES - SAME_LINES % period
}

/// How many pages of so many lines so many steps fill.
fn whole_pages(steps: usize, lines: usize) -> usize
    ensures { 64 * (lines * result) ≤ steps }
{
    if lines == 0 {
        return 0;
    }
    steps / STEPS / lines
}

/// Writes the first pages of the journal, so many, which are the same: the page of its first so
/// many lines is put together once. The page is empty before and after.
fn write_same_pages<K: Sink>(
    journal: &[Step],
    lines: usize,
    pages: usize,
    page: &mut Page,
    sink: &mut K,
) -> Result<(), Failed>
    requires page { page.old ≡ [] }
    requires few { lines ≤ 128 }
    requires whole { 64 * (lines * pages) ≤ length journal.now }
    requires again { Repeats (64 * lines) journal.now }
    ensures written { IsWritten (flat_map (journal_text journal.now) (range_with_len 0 (lines * pages))) result
        (K.taken sink.old) (K.taken sink.new) (K.faults sink.old) (K.faults sink.new) }
    ensures empty { page.new ≡ [] }
{
    if pages > 0 {
        put_journal(journal, 0, lines, page);
    }
    write_page_times(page, pages, sink)
}

/// Writes the lines of the journal, which repeats itself after so many steps. Pages that are the
/// same are put together once. The page is empty before and after.
pub(crate) fn write_journal<K: Sink>(
    journal: &[Step],
    period: usize,
    page: &mut Page,
    sink: &mut K,
) -> Result<(), Failed>
    requires page { page.old ≡ [] }
    requires period { Repeats period journal.now }
    ensures written { IsWritten (concat (report.journal_lines journal.now)) result
        (K.taken sink.old) (K.taken sink.new) (K.faults sink.old) (K.faults sink.new) }
    ensures empty { page.new ≡ [] }
{
    let lines = (journal.len() + (STEPS - 1)) / STEPS;
    let same = same_lines(period);
    let pages = whole_pages(journal.len(), same);
    write_same_pages(journal, same, pages, page, sink)?;
    let mut first = same * pages;
    while first < lines {
        let end = (first + SHORT_LINES).min(lines);
        put_journal(journal, first, end, page);
        write_page(page, sink)?;
        first = end;
    }
    Ok(())
}
