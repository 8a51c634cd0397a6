ghost use Rattle.std.specs.Prelude.{◌≡◌};
ghost use Rattle.cany_model.specs.Bus.History.{notice_of};

use cany_base::NoticeKind;
use cany_model::Share;

/// What a node learns of a slot by its share in it.
pub(crate) fn notice_of(share: Share) -> NoticeKind
    ensures { result ≡ notice_of share }
{
    match share {
        Share::Idle => NoticeKind::Idle,
        Share::Took(frame) => NoticeKind::Got(frame),
        Share::Confirmed(frame) => NoticeKind::Sent(frame),
        Share::Rejected | Share::Errored => NoticeKind::Bad,
    }
}
