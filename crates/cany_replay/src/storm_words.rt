//! The words of the command `storm`.
ghost use Rattle.std.specs.Prelude.{◌≡◌, map, string_bytes};
ghost use Rattle.cany_replay.specs.StormWords.{if_storm, storm_number};

use cany_command::named_number;

/// The most digits of the number of a storm.
const MOST_DIGITS: usize = 10;

/// The numbers of storms are those of 32 bits.
const STORMS: u64 = 1 << 32;

/// The storm of this number.
fn if_storm(number: u64) -> Option<u32>
    ensures { result ≡ if_storm number }
{
    if number < STORMS {
        Some(number as u32)
    } else {
        None
    }
}

/// The number of the storm that the words name.
#[tactic(auto, unfolding(crate::specs::StormWords::storm_number))]
pub(crate) fn storm_number(words: &[String]) -> Option<u32>
    ensures { result ≡ storm_number (map string_bytes words.now) }
{
    match named_number(words, "storm", MOST_DIGITS) {
        Some(number) => if_storm(number),
        None => None,
    }
}
