//! The refusals of the command `media`.
ghost use Rattle.std.specs.Prelude.{◌≡◌, ◌≤◌, ◌+◌, ◌++◌, [], ◌∷◌, length, decimal};
ghost use Rattle.cany_media.specs.MediaText.{media_refusal_line};
ghost use Rattle.cany_text.specs.ReportLines.{line_of};

use arrayvec::ArrayVec;
use itoa::Buffer;

/// How many bytes a line of a refusal has at most.
const MOST_LINE_BYTES: usize = 64;

/// Why the command refuses its words, or a scenario.
#[derive(Clone, Copy)]
pub(crate) enum MediaRefusal {
    /// The fault at `index`, counted from 0, shares a slot with an earlier one of its line.
    Overlap { index: usize },
    /// The scenario of one bus would have this number of fault rules.
    TooMany { rules: u64 },
}

/// Puts bytes at the end of a line.
fn put(line: &mut ArrayVec<u8, MOST_LINE_BYTES>, bytes: &[u8])
    requires { length line.old.items + length bytes.now ≤ 64 }
    ensures { line.new.items ≡ line.old.items ++ bytes.now }
{
    line.try_extend_from_slice(bytes).unwrap();
}

/// A line of words and a number. It takes no memory.
fn numbered(words: &'static str, number: u64) -> ArrayVec<u8, MOST_LINE_BYTES>
    requires { length words.now ≤ 40 }
    ensures { result.items ≡ line_of (words.now ∷ decimal number ∷ []) }
{
    let mut digits = Buffer::new();
    let digits = digits.format(number);
    let mut line = ArrayVec::new();
    put(&mut line, words.as_bytes());
    put(&mut line, b" ");
    put(&mut line, digits.as_bytes());
    put(&mut line, b"\n");
    line
}

impl MediaRefusal {
    /// The line of the refusal. It takes no memory.
    #[tactic(auto, unfolding(crate::specs::MediaText::media_refusal_line))]
    pub(crate) fn line(&self) -> ArrayVec<u8, MOST_LINE_BYTES>
        ensures { result.items ≡ media_refusal_line self.now }
    {
        match *self {
            MediaRefusal::Overlap { index } => numbered("refused overlap", index as u64),
            MediaRefusal::TooMany { rules } => numbered("refused too many blind slots", rules),
        }
    }
}
