use cany_base::Slot;

/// The first slot at which a run leaves the fault hypothesis, and the clause of it that fails
/// there.
#[derive(Clone, Copy, Debug, PartialEq, Eq)]
pub struct Break {
    pub kind: BreakKind,
    pub slot: Slot,
}

/// A clause of the fault hypothesis.
#[derive(Clone, Copy, Debug, PartialEq, Eq)]
pub enum BreakKind {
    /// A Silent slot carried a frame.
    Silent,
    /// An identity, or the vectors of one cycle together, met too many Partial slots.
    Omit,
    /// A window has too many Lost or Partial slots that carried a frame.
    Errors,
}
