//! The command `replica`: a table at each node that the messages of TOTCAN change, and that so
//! stays equal at all nodes.
#![tactic(auto)]

mod answer;
mod change;
mod fold;
pub mod laws;
mod lines;
mod reply;
mod table;
mod text;
mod top;
mod value;

pub use answer::Answer;
pub use fold::table_of;
pub use reply::Reply;
pub use table::Table;
pub use text::write_replica;
pub use top::replica_top;
pub use value::Value;
