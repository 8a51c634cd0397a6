use crate::reply::StepReply;
use cany_base::NodeId;

/// Why a journal was not followed to the end of a run.
#[derive(Clone, Copy, Debug, PartialEq, Eq)]
pub enum FollowFault {
    /// The step at this place, counted from 0, is the first that is not done. The reply says why.
    Refused { place: usize, reply: StepReply },
    /// Every step was done, and the run has not ended. `ran` is the number of slots that ran, and
    /// `node` the least running node with an unread notice, if there is one.
    Unfinished { ran: u64, node: Option<NodeId> },
}
