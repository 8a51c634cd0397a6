use cany_base::NodeSet;

/// The vector that a node has at the end of a membership cycle, and so its next view of the site.
#[derive(Clone, Copy)]
pub struct Ended {
    /// The number of the cycle, counted from 1, and so that of the view.
    pub cycle: u16,
    pub vector: NodeSet,
}
