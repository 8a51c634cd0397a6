//! A number among the words of a command. None of these calls takes memory.
ghost use Rattle.std.specs.Prelude.{◌≡◌, ◌≤◌, ◌<◌, ◌^◌, ◌&&◌, IfSome, length, map, nat_le, string_bytes};
ghost use Rattle.std.specs.Char.{is_ascii_digit};
ghost use Rattle.std.specs.List.{list_all};
ghost use Rattle.cany_command.specs.Numbers.{is_numeral, most_digits, named_number, number_of};

fn is_digit(byte: &u8) -> bool
    ensures { result ≡ is_ascii_digit byte.now }
{
    byte.is_ascii_digit()
}

fn are_digits(bytes: &[u8]) -> bool
    ensures { result ≡ list_all is_ascii_digit bytes.now }
{
    bytes.iter().all(is_digit)
}

/// Whether the word is 1 to so many digits.
fn is_numeral(word: &str, most: usize) -> bool
    ensures { result ≡ is_numeral most word.now }
{
    let bytes = word.as_bytes();
    1 <= bytes.len() && bytes.len() <= most && are_digits(bytes)
}

/// The number that a word of 1 to `most` digits writes.
///
/// Promise: the number is exactly the one that the word writes, and is below 10 to the power of
/// `most`.
///
/// Answers: `None` exactly where the word is not of 1 to `most` digits.
///
/// Shown by: `.ci/calls.py`, `one_line_down`, `watch_one_node`.
pub fn number_in(word: &str, most: usize) -> Option<u64>
    requires { most ≤ most_digits }
    ensures number { result ≡ number_of most word.now }
    ensures short { IfSome result (λ number. number < 10 ^ most) }
{
    if is_numeral(word, most) {
        word.parse::<u64>().ok()
    } else {
        None
    }
}

/// The number behind the word of the command, where the words are these two. The number has 1 to
/// `most` digits.
///
/// Promise: the number is exactly the one that the second word writes, and is below 10 to the power
/// of `most`.
///
/// Answers: `None` exactly where the words are not that of the command and one of 1 to `most`
/// digits.
///
/// Shown by: `.ci/calls.py`, `watch_one_node`, `a_write_of_a_summary_fails`.
pub fn named_number(words: &[String], command: &str, most: usize) -> Option<u64>
    requires { most ≤ most_digits }
    ensures number { result ≡ named_number command.now most (map string_bytes words.now) }
    ensures short { IfSome result (λ number. number < 10 ^ most) }
{
    match words {
        [name, word] if name.as_str() == command => number_in(word.as_str(), most),
        _ => None,
    }
}
