ghost use Rattle.std.specs.Prelude.{◌≡◌, ◌-◌, ◌≤◌};
ghost use Rattle.cany_base.specs.Limits.{greatest_error_counter};
ghost use Rattle.cany_model.specs.Bus.State.{NodeState};
ghost use Rattle.cany_model.specs.Bus.Slot.{after_share, exceeds};

use cany_base::limits::GREATEST_ERROR_COUNTER;
use cany_model::Share;

/// The error counters of a controller.
#[derive(Clone, Copy)]
pub(crate) struct Counters {
    pub(crate) transmit: u32,
    pub(crate) receive: u32,
}

impl Counters {
    /// Both are zero, as at the start.
    pub(crate) fn clear(&mut self)
        ensures { self.new ≡ record { transmit = 0; receive = 0 } }
    {
        self.transmit = 0;
        self.receive = 0;
    }

    /// The counters after a frame was taken.
    pub(crate) fn after_receipt(self) -> Counters
        ensures { result ≡ record self { receive = self.receive - 1 } }
    {
        Counters {
            receive: self.receive.saturating_sub(1),
            ..self
        }
    }

    /// The counters after a frame was sent with success.
    pub(crate) fn after_success(self) -> Counters
        ensures { result ≡ record self { transmit = self.transmit - 1 } }
    {
        Counters {
            transmit: self.transmit.saturating_sub(1),
            ..self
        }
    }

    /// The counters of a running node after its share in a slot (CAN Specification 2.0 Part B, 8).
    #[tactic(auto, unfolding(cany_model::specs::Bus::Slot::after_share))]
    pub(crate) fn after(self, share: &Share) -> Counters
        requires transmit { self.transmit ≤ greatest_error_counter }
        requires receive { self.receive ≤ greatest_error_counter }
        ensures transmit { (node : NodeState) → node.transmit ≡ self.transmit →
            result.transmit ≡ (after_share share.now node).transmit }
        ensures receive { (node : NodeState) → node.receive ≡ self.receive →
            result.receive ≡ (after_share share.now node).receive }
    {
        let Counters { transmit, receive } = self;
        match share {
            Share::Idle => self,
            Share::Took(_) => self.after_receipt(),
            Share::Rejected => Counters {
                transmit,
                receive: receive + 1,
            },
            Share::Confirmed(_) => self.after_success(),
            Share::Errored => Counters {
                transmit: transmit + 8,
                receive,
            },
        }
    }

    /// Whether a counter is above the limit.
    pub(crate) fn exceed_limit(self) -> bool
        ensures { (node : NodeState) → node.transmit ≡ self.transmit → node.receive ≡ self.receive →
            result ≡ exceeds node }
    {
        self.transmit > GREATEST_ERROR_COUNTER || self.receive > GREATEST_ERROR_COUNTER
    }
}
