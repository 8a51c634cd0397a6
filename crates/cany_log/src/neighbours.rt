//! Runs of neighbours in a set of nodes, and their numbers as text.
ghost use Rattle.std.specs.Prelude.{◌≡◌, ◌-◌, ◌<◌, ◌≤◌, ℕ, false, length, true};
ghost use Rattle.std.specs.List.{flat_map, range_with_len};
ghost use Rattle.cany_base.specs.Limits.{most_nodes};
ghost use Rattle.cany_base.specs.Nodes.{AllBelow, has, node_numbers};
ghost use Rattle.cany_text.specs.ReportLines.{numbers_text};
ghost use Rattle.cany_log.specs.Numbers.{with_comma};

use cany_base::NodeSet;

/// The numbers of all nodes, parted by commas.
const NUMBERS: &[u8] =
    b"0,1,2,3,4,5,6,7,8,9,10,11,12,13,14,15,16,17,18,19,20,21,22,23,24,25,26,27,28,29,30,31,32,33,34,35,36,37,38,39,40,41,42,43,44,45,46,47,48,49,50,51,52,53,54,55,56,57,58,59,60,61,62,63";

/// Where the number stands among those of all nodes, or would stand: as many bytes as the numbers
/// before it have, each with a comma.
fn place_of_number(number: u8) -> usize
    requires { number ≤ most_nodes }
    ensures { result ≡ length (flat_map with_comma (range_with_len 0 number)) }
{
    let number = usize::from(number);
    if number < 10 {
        2 * number
    } else {
        3 * number - 10
    }
}

/// The numbers of all nodes, parted by commas.
fn all_numbers() -> &'static [u8]
    ensures { result.now ≡ numbers_text node_numbers }
{
    NUMBERS
}

/// The numbers from one on to below another, parted by commas.
pub(crate) fn numbers_from_to(start: u8, end: u8) -> &'static [u8]
    requires order { start < end }
    requires few { end ≤ most_nodes }
    ensures { result.now ≡ numbers_text (range_with_len start (end - start)) }
{
    let first = place_of_number(start);
    let past = place_of_number(end) - 1;
    &all_numbers()[first..past]
}

/// The number after the greatest one in the set, or 0 where there is none.
fn end_of_set(set: NodeSet) -> u8
    ensures within { result ≤ most_nodes }
    ensures below { AllBelow result set }
    ensures last { 0 < result → has set (result - 1) ≡ true }
{
    (64 - set.bits().leading_zeros()) as u8
}

/// The number after the greatest one below the bound that is in the set, or 0 where there is none.
pub(crate) fn end_of_run(set: NodeSet, bound: u8) -> u8
    requires { bound ≤ most_nodes }
    ensures within { result ≤ bound }
    ensures none { (i : ℕ) → result ≤ i → i < bound → has set i ≡ false }
    ensures last { 0 < result → has set (result - 1) ≡ true }
{
    end_of_set(set.meet(NodeSet::all(bound)))
}

/// The number from which on all below the end of a run are in the set.
pub(crate) fn start_of_run(set: NodeSet, end: u8) -> u8
    requires some { 0 < end }
    requires few { end ≤ most_nodes }
    requires last { has set (end - 1) ≡ true }
    ensures before { result < end }
    ensures all { (i : ℕ) → result ≤ i → i < end → has set i ≡ true }
{
    end_of_set(NodeSet::all(end).minus(set))
}
