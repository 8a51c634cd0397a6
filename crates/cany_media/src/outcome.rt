ghost use Rattle.std.specs.Prelude.{◌≡◌};
ghost use Rattle.cany_media.specs.Lines.{has_whole};
ghost use Rattle.cany_media.specs.Outcome.{IsMediaOutcome};

use crate::line::Line;
use can_arbiter::{Offers, Outcome, arbitrate};
use cany_base::{Frame, NodeSet};

/// What arbitration gives in one slot over two lines.
#[derive(Clone, Copy)]
pub enum MediaOutcome {
    /// No node offers a frame.
    Idle,
    /// One line is whole, so that the bus carries this frame as if it were the only line.
    Joined { frame: Frame, senders: NodeSet },
    /// No line is whole. The frame and its senders are those of one bus.
    Parted { frame: Frame, senders: NodeSet },
}

/// Whether one of the two lines of a bus of so many nodes is whole.
pub(crate) fn has_whole(lines: (Line, Line), nodes: u8) -> bool
    ensures { result ≡ has_whole nodes lines }
{
    lines.0.is_whole(nodes) || lines.1.is_whole(nodes)
}

/// Arbitration over the offers of one slot, on a bus of `nodes` nodes with these two lines.
///
/// Promise: where nobody offers a frame, the answer says so. Else its frame and senders are those
/// of arbitration, and it tells whether a line is whole.
///
/// Answers: `Idle` exactly where nobody offers a frame. `Parted` exactly where a frame is offered
/// and no line is whole. Else `Joined`.
///
/// Shown by: `levels_over_two_lines`, `one_line_down_loses_the_frame`,
/// `a_split_of_all_nodes_parts_them`. The program does not run it.
pub fn levels(offers: &Offers, lines: (Line, Line), nodes: u8) -> MediaOutcome
    ensures { IsMediaOutcome offers.now lines nodes result }
{
    let Outcome::Won { frame, senders } = arbitrate(offers) else {
        return MediaOutcome::Idle;
    };
    if has_whole(lines, nodes) {
        MediaOutcome::Joined { frame, senders }
    } else {
        MediaOutcome::Parted { frame, senders }
    }
}
