use cany_base::Frame;

/// What a running node did in a slot.
#[derive(Clone, Copy, Debug)]
pub enum Share {
    /// No frame was carried.
    Idle,
    /// It was a receiver and accepted the frame.
    Took(Frame),
    /// It was a receiver and rejected the frame.
    Rejected,
    /// It sent the frame and saw success.
    Confirmed(Frame),
    /// It sent a frame and saw an error.
    Errored,
}
