ghost use Rattle.std.specs.Prelude.{◌≡◌, ◌≤◌, length};
ghost use Rattle.cany_replica.specs.ReplicaText as text;

/// What a table answers to a message.
#[derive(Clone, Copy)]
pub enum Reply {
    /// The key has the value now.
    Stored,
    /// The key had a value, and has none now.
    Removed,
    /// The key that was to have no value had none.
    Absent,
    /// The key had exactly the byte that was to be replaced, and has the other now.
    Swapped,
    /// The key had another value, or none: nothing changed.
    Kept,
    /// The message asks a table for nothing.
    Ignored,
}

impl Reply {
    /// What the reply is called in the text.
    #[tactic(auto, unfolding(crate::specs::ReplicaText::reply_name))]
    pub(crate) fn name(self) -> &'static str
        ensures name { result.now ≡ text.reply_name self }
        ensures short { length result.now ≤ 7 }
    {
        match self {
            Reply::Stored => "stored",
            Reply::Removed => "removed",
            Reply::Absent => "absent",
            Reply::Swapped => "swapped",
            Reply::Kept => "kept",
            Reply::Ignored => "ignored",
        }
    }
}
