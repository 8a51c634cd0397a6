//! The words of a command that has no arguments.
ghost use Rattle.std.specs.Prelude.{◌≡◌, ◌↔◌, ◌∷◌, [], map, string_bytes, IsTrue};

/// Whether the words are this one word alone.
///
/// Promise: the answer is exact.
///
/// Answers: true exactly where there is one word, and it is this one.
///
/// Shown by: `.ci/calls.py`, `other_words_read_nothing`, `words_may_follow_the_command`.
pub fn is_only(words: &[String], name: &str) -> bool
    ensures { IsTrue result ↔ (map string_bytes words.now ≡ name.now ∷ []) }
{
    match words {
        [word] => word.as_str() == name,
        _ => false,
    }
}
