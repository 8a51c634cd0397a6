//! The entries of a scenario that did nothing.
use cany_base::Slot;

/// An entry of the scenario that did nothing in the run, by its place in its array.
#[derive(Clone, Copy)]
pub struct Unused {
    pub place: usize,
    pub entry: UnusedEntry,
}

/// The kind of the entry, and why it did nothing.
#[derive(Clone, Copy)]
pub enum UnusedEntry {
    Send(NoAsk),
    Fault(NoFault),
    Join(NoAsk),
    Leave(NoAsk),
    /// The node did not start again.
    Restart,
}

/// Why a scripted send, join or leave did nothing.
#[derive(Clone, Copy)]
pub enum NoAsk {
    /// The node takes part only since a later slot.
    From(Slot),
    /// No incarnation of the node read the notice of the slot.
    Stopped,
    /// No later slot carried the frame of the join or leave.
    NeverCarried,
}

/// Why a fault rule, or a part of it, did nothing. The slot is that in which it would act.
#[derive(Clone, Copy)]
pub enum NoFault {
    /// There were only this many attempts to carry the frame.
    Attempts(u64),
    /// There is a rule for the slot of the attempt.
    Ruled(Slot),
    /// The slot carried no frame.
    Idle(Slot),
    /// No node of the set was a receiver.
    RejectsNobody(Slot),
    /// None of the nodes stopped in the slot.
    StopsNobody(Slot),
}
