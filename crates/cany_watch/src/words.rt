//! The words of the command `watch`.
ghost use Rattle.std.specs.Prelude.{◌≡◌, map, string_bytes};
ghost use Rattle.cany_watch.specs.WatchWords.{watched_node};

use cany_command::named_number;

/// The most digits of the number of a node.
const MOST_DIGITS: usize = 2;

/// The number of the node that the words name.
#[tactic(auto, unfolding(crate::specs::WatchWords::watched_node))]
pub(crate) fn watched_node(words: &[String]) -> Option<u8>
    ensures { result ≡ watched_node (map string_bytes words.now) }
{
    match named_number(words, "watch", MOST_DIGITS) {
        Some(number) => Some(number as u8),
        None => None,
    }
}
