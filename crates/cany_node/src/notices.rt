//! What an incarnation hears of a notice.

ghost use Rattle.std.specs.Prelude.{◌≡◌, false, true};
ghost use Rattle.cany_base.specs.declared.notice.NoticeKind.TheVariants.{Idle};
ghost use Rattle.cany_model.specs.Rules.Notices.{error_as_idle, is_early, is_early_frame};
ghost use Rattle.cany_node.specs.Resting.{brings_totcan_or_life, is_for_edcan, is_for_relays, is_life_sign};
ghost use Rattle.cany_node.specs.Membership.{tells_of_site};

use can_frame::is_of_site;
use cany_base::{Class, Frame, NoticeKind};
use cany_message::is_of_class;

/// Whether the frame carries a vector of a membership cycle before this one.
fn is_early_frame(cycle: u64, frame: &Frame) -> bool
    ensures { result ≡ is_early_frame cycle frame.now }
{
    is_of_class(frame, Class::Rha) && u64::from(frame.number) < cycle
}

/// Whether a notice brings a vector of a membership cycle before this one.
pub(crate) fn is_early(cycle: u64, kind: &NoticeKind) -> bool
    ensures { result ≡ is_early cycle kind.now }
{
    match kind {
        NoticeKind::Got(frame) | NoticeKind::Sent(frame) => is_early_frame(cycle, frame),
        NoticeKind::Idle | NoticeKind::Bad => false,
    }
}

/// Whether there was an error in the slot, which is heard as an idle slot: no rule tells the one
/// from the other.
#[tactic(auto, unfolding(cany_model::specs::Rules::Notices::error_as_idle))]
pub(crate) fn is_error(kind: &NoticeKind) -> bool
    ensures error { result ≡ true → error_as_idle kind.now ≡ Idle }
    ensures other { result ≡ false → error_as_idle kind.now ≡ kind.now }
{
    matches!(kind, NoticeKind::Bad)
}

/// Whether a notice is nothing to TOTCAN and tells nothing of the site: nothing was heard, or a
/// frame of EDCAN or of RELCAN.
pub(crate) fn is_for_relays(kind: &NoticeKind) -> bool
    ensures { result ≡ is_for_relays kind.now }
{
    match kind {
        NoticeKind::Got(frame) | NoticeKind::Sent(frame) => {
            is_of_class(frame, Class::Ed)
                || is_of_class(frame, Class::Rel)
                || is_of_class(frame, Class::Confirm)
        }
        NoticeKind::Idle | NoticeKind::Bad => true,
    }
}

/// Whether a notice brings a frame of EDCAN.
pub(crate) fn is_for_edcan(kind: &NoticeKind) -> bool
    ensures { result ≡ is_for_edcan kind.now }
{
    match kind {
        NoticeKind::Got(frame) | NoticeKind::Sent(frame) => is_of_class(frame, Class::Ed),
        NoticeKind::Idle | NoticeKind::Bad => false,
    }
}

/// Whether a notice brings a frame of TOTCAN or a life sign, which neither EDCAN nor RELCAN hears.
pub(crate) fn brings_totcan_or_life(kind: &NoticeKind) -> bool
    ensures { result ≡ brings_totcan_or_life kind.now }
{
    match kind {
        NoticeKind::Got(frame) | NoticeKind::Sent(frame) => {
            is_of_class(frame, Class::Tot)
                || is_of_class(frame, Class::Accept)
                || is_of_class(frame, Class::Els)
        }
        NoticeKind::Idle | NoticeKind::Bad => false,
    }
}

/// Whether a notice brings a life sign.
pub(crate) fn is_life_sign(kind: &NoticeKind) -> bool
    ensures { result ≡ is_life_sign kind.now }
{
    match kind {
        NoticeKind::Got(frame) | NoticeKind::Sent(frame) => is_of_class(frame, Class::Els),
        NoticeKind::Idle | NoticeKind::Bad => false,
    }
}

/// Whether a notice tells of the site: who lives, who has failed, who joins or leaves, or a vector.
/// A data frame of TOTCAN does: it shows that its node lives.
pub(crate) fn tells_of_site(kind: &NoticeKind) -> bool
    ensures { result ≡ tells_of_site kind.now }
{
    match kind {
        NoticeKind::Got(frame) | NoticeKind::Sent(frame) => is_of_site(frame.class),
        NoticeKind::Idle | NoticeKind::Bad => false,
    }
}
