//! The report and the summary of a run, and the lines of refusals, written to a sink. Each line is
//! put together before the sink is given any of it, in a report some lines together, and no call
//! takes memory.
#![tactic(auto)]

mod bus_line;
mod bus_lines;
mod delivery;
mod entries;
mod entry_counts;
mod heading;
mod hypothesis;
mod journal_refusal;
mod letters;
mod line;
mod line_buffer;
mod message_line;
mod messages;
mod neighbours;
mod node_lines;
mod page;
mod refusal;
mod report;
mod scenario_refusal;
mod summary;
mod text_before;
mod text_field;

pub use entries::write_entry;
pub use hypothesis::write_hypothesis;
pub use line::{SHORT_LINE_BYTES, write_line, write_short_line};
pub use refusal::{Refusal, write_refusal};
pub use report::write_report;
pub use summary::{write_settled, write_summary};
pub use text_field::TextField;
