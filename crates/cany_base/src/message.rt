ghost use Rattle.std.specs.Prelude.{◌≡◌};
ghost use Rattle.cany_base.specs.Frame.{data_class};

use crate::class::Class;
use crate::node::NodeId;
use crate::notice::Slot;
use crate::payload::Payload;

/// The broadcast protocol that carries a message: EDCAN, RELCAN or TOTCAN.
#[derive(Clone, Copy, Debug, PartialEq, Eq)]
pub enum Service {
    Ed,
    Rel,
    Tot,
}

impl Service {
    /// The class of the frames that carry the data of its messages.
    ///
    /// Promise: ED, REL or TOT, as the service is EDCAN, RELCAN or TOTCAN.
    pub fn class(self) -> Class
        ensures { result ≡ data_class self }
    {
        match self {
            Service::Ed => Class::Ed,
            Service::Rel => Class::Rel,
            Service::Tot => Class::Tot,
        }
    }
}

/// Names a message: its origin, and its place among the messages of that origin, counted from 0
/// over all services.
#[derive(Clone, Copy, Debug, PartialEq, Eq)]
pub struct MsgKey {
    pub origin: NodeId,
    pub seq: u16,
}

/// A scripted send: in its turn of `slot` the node sends the payload by the service.
#[derive(Clone, Copy, Debug)]
pub struct SendAsk {
    pub slot: Slot,
    pub node: NodeId,
    pub service: Service,
    pub payload: Payload,
}

/// A scripted join or leave, for which the node asks in its turn of `slot`; or a restart entry, by
/// which the node starts again at the end of `slot`, if it is stopped.
#[derive(Clone, Copy, Debug)]
pub struct NodeAsk {
    pub slot: Slot,
    pub node: NodeId,
}
