ghost use Rattle.std.specs.Prelude.{◌≡◌};
ghost use Rattle.cany_diffuse.specs.Eager.{is_enough, is_first_copy, learnt_of};

/// What a copy calls for. The copies are those read since the value was last forgotten, this one
/// counted.
#[derive(Clone, Copy)]
pub enum Learnt {
    /// It is the first copy of a frame that the node has not sent itself: the node asks for the
    /// frame.
    First,
    /// It calls for nothing.
    Again { copies: u32 },
    /// There are more copies than there may be omissions: the node withdraws the frame.
    Enough { copies: u32 },
}

impl Learnt {
    /// What a copy calls for, given the number of copies, this one counted, and whether the node's
    /// own transmission was noted.
    ///
    /// Promise: the answer is that of the definition (`learnt_of`).
    ///
    /// Answers: `Enough` exactly with more than `omit` copies. Else `First` exactly at one copy
    /// without an own transmission. Else `Again`.
    ///
    /// Shown by: `one_copy_is_enough_without_omissions`, `enough_one_copy_early`,
    /// `first_although_owned`.
    pub fn of(omit: u32, copies: u32, owned: bool) -> Learnt
        ensures { result ≡ learnt_of omit copies owned }
    {
        if copies > omit {
            Learnt::Enough { copies }
        } else if copies == 1 && !owned {
            Learnt::First
        } else {
            Learnt::Again { copies }
        }
    }

    /// Whether the copy is the first that was read, also where the node has sent the frame itself.
    ///
    /// Promise: whether one copy was read, this one.
    ///
    /// Answers: `true` exactly at `First`, and where the number of copies is 1.
    ///
    /// Shown by: `one_message_no_fault`, `every_copy_is_the_first`.
    pub fn is_first_copy(&self) -> bool
        ensures { result ≡ is_first_copy self.now }
    {
        match self {
            Learnt::First => true,
            Learnt::Again { copies } | Learnt::Enough { copies } => *copies == 1,
        }
    }

    /// Whether the copy is one of more than there may be omissions.
    ///
    /// Promise: whether more copies were read than there may be omissions.
    ///
    /// Answers: `true` exactly at `Enough`.
    ///
    /// Shown by: `stopped_node_is_removed`.
    pub fn is_enough(&self) -> bool
        ensures { result ≡ is_enough self.now }
    {
        match self {
            Learnt::First | Learnt::Again { .. } => false,
            Learnt::Enough { .. } => true,
        }
    }
}
