//! The script, the counts and the tally may move to another thread and be shared by threads, as the
//! bounds below show.

use crate::attempts::Attempts;
use crate::script::{Script, ScriptFault};
use crate::tally::Tally;

fn is_thread_safe<T: Send + Sync>() {}

fn all_are_thread_safe() {
    is_thread_safe::<(Script, ScriptFault, Attempts, Tally)>();
}
