//! The text of `--version`.
use std::alloc::{AllocError, Global};

/// The version of the program. Each text that it writes names the version of its own form.
const VERSION: &str = "1";

/// The commit that the program was built from, and the logic of the kit that proved it. These
/// values are those of a build that was told nothing: `tools/build.py` writes the true ones into
/// the copy that it builds.
const COMMIT: &str = "unknown";

const LOGIC: &str = "unproved";

/// Three lines: the program with its version, the commit, and the logic of the kit that proved it.
pub(crate) fn version(alloc: Global) -> Result<String, AllocError> {
    format!(in alloc; "canely {VERSION}\ncommit {COMMIT}\nlogic {LOGIC}\n")
}
