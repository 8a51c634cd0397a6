use crate::reply::Reply;
use cany_base::MsgKey;

/// The reply to a message.
#[derive(Clone, Copy)]
pub struct Answer {
    pub msg: MsgKey,
    pub reply: Reply,
}
