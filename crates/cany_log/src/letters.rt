//! The letters of a journal.
ghost use Rattle.std.specs.Prelude.{◌≡◌, ◌+◌, ◌≤◌, ◌++◌, length, map, drop};
ghost use Rattle.cany_base.specs.Limits.{most_nodes};
ghost use Rattle.cany_log.specs.Letters.{letter_of};
ghost use Rattle.cany_text.specs.ReportLines.{step_letter};

use cany_base::{NodeId, Step};

/// Writes the letters of some steps so that they end at a place of a row of bytes, and answers
/// where they begin.
pub(crate) fn letters_before(row: &mut [u8], end: usize, steps: &[Step]) -> usize
    requires { (length steps.now ≤ end) × (end ≤ length row.old) }
    ensures start { result + length steps.now ≡ end }
    ensures text { drop result row.new ≡ map step_letter steps.now ++ drop end row.old }
{
    let start = end - steps.len();
    write_letters(&mut row[start..end], steps);
    start
}

/// Writes the letters of as many steps as there is room for.
// A hint: inlined it asks at each line anew, and at greater length, whether the two overlap.
#[inline(never)]
fn write_letters(letters: &mut [u8], steps: &[Step])
    requires { length letters.old ≡ length steps.now }
    ensures { letters.new ≡ map step_letter steps.now }
{
    for i in 0..steps.len() {
        letters[i] = letter(steps[i]);
    }
}

/// The letter of a step.
fn letter(step: Step) -> u8
    ensures { result ≡ step_letter step }
{
    letter_of(number_of(step))
}

/// The place of a step's letter in the alphabet: the number of its node, and for a slot the place
/// past those of all nodes.
fn number_of(step: Step) -> u8
    ensures few { result ≤ most_nodes }
    ensures letter { letter_of result ≡ step_letter step }
{
    match step {
        Step::Slot => NodeId::COUNT,
        Step::Turn(node) => node.get(),
    }
}

/// The letter at a place of the alphabet. It is found by comparisons and not looked up, so that
/// LLVM makes many letters at a time.
fn letter_of(number: u8) -> u8
    requires { number ≤ most_nodes }
    ensures { result ≡ letter_of number }
{
    number + offset_of(number) - 19
}

/// How far a letter is from its place in the alphabet, and 19 more, since that of `+` lies before.
fn offset_of(number: u8) -> u8
    requires { number ≤ most_nodes }
    ensures letter { letter_of number + 19 ≡ number + result }
    ensures small { result ≤ 106 }
{
    if number < 10 {
        67
    } else if number < 36 {
        106
    } else if number < 62 {
        48
    } else if number < 63 {
        0
    } else {
        1
    }
}
