/// The class of a frame: what it is for. In arbitration an earlier class beats a later one.
#[derive(Clone, Copy, Debug, PartialEq, Eq, PartialOrd, Ord, Hash)]
pub enum Class {
    /// A TOTCAN message is accepted: number and node are its sequence number and its origin.
    Accept,
    /// A reception history vector of a node, of a membership cycle.
    Rha,
    /// A life sign of a node, numbered from 0.
    Els,
    /// A failure sign: the node is accused, in a membership cycle.
    Fda,
    /// The node asks to become a member, in a membership cycle.
    Join,
    /// The node asks to be no longer a member, in a membership cycle.
    Leave,
    /// The origin of a RELCAN message confirms it: number and node are its sequence number and its
    /// origin.
    Confirm,
    /// The data of a TOTCAN message: number and node are its sequence number and its origin.
    Tot,
    /// The data of a RELCAN message: number and node are its sequence number and its origin.
    Rel,
    /// The data of an EDCAN message: number and node are its sequence number and its origin.
    Ed,
}
