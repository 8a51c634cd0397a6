//! The journal of a report. It is another each time that threads make it.
use std::alloc::{AllocError, Global};

/// What a line of a journal begins with.
const JOURNAL: &str = "journal ";

/// The report, or the part of one, without its journal.
pub(crate) fn without_journal(alloc: Global, report: &str) -> Result<String, AllocError> {
    let mut others = String::new(alloc);
    for line in report.lines() {
        if !line.starts_with(JOURNAL) {
            others.push_str(line)?;
            others.push_str("\n")?;
        }
    }
    Ok(others)
}

/// Adds the steps of a line of a journal, and nothing for another line.
fn push_steps(text: &mut String, line: &str) -> Result<(), AllocError> {
    if let Some(steps) = line.strip_prefix(JOURNAL) {
        text.push_str("\"")?;
        text.push_str(steps)?;
        text.push_str("\", ")?;
    }
    Ok(())
}

/// The text of a scenario that has no journal, with that of the report.
pub(crate) fn with_journal(
    alloc: Global,
    report: &str,
    scenario: &str,
) -> Result<String, AllocError> {
    let mut text = String::from_str(alloc, "journal = [")?;
    for line in report.lines() {
        push_steps(&mut text, line)?;
    }
    text.push_str("]\n")?;
    text.push_str(scenario)?;
    Ok(text)
}
