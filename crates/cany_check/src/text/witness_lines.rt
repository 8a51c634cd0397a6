//! The lines of the witnesses of what is broken.
use crate::deciders::findings::{Accusation, EntryAt, Parting, ViewParting};
use crate::text::lines::Line;
use cany_io::{Failed, Sink};
use cany_log::{TextField, write_line};

impl Line for EntryAt {
    ghost use Rattle.cany_check.specs.Texts.CheckLines.{entry_line};

    ghost line = { entry_line };

    #[tactic(auto, unfolding(crate::specs::Texts::CheckLines::entry_line))]
    fn write<K: Sink>(&self, sink: &mut K) -> Result<(), Failed> {
        write_line(
            "entry node",
            &[
                TextField::Number(u64::from(self.node.get())),
                TextField::Text("place"),
                TextField::Number(self.place as u64),
            ],
            sink,
        )
    }
}

impl Line for Parting {
    ghost use Rattle.cany_check.specs.Texts.CheckLines.{parted_line};

    ghost line = { parted_line };

    #[tactic(auto, unfolding(crate::specs::Texts::CheckLines::parted_line))]
    fn write<K: Sink>(&self, sink: &mut K) -> Result<(), Failed> {
        write_line(
            "parted node",
            &[
                TextField::Number(u64::from(self.first.get())),
                TextField::Text("node"),
                TextField::Number(u64::from(self.second.get())),
                TextField::Text("place"),
                TextField::Number(self.place as u64),
                TextField::Text("tot"),
                TextField::Number(u64::from(self.here.msg.origin.get())),
                TextField::Number(u64::from(self.here.msg.seq)),
                TextField::Text("slot"),
                TextField::Number(self.here.slot),
                TextField::Text("tot"),
                TextField::Number(u64::from(self.there.msg.origin.get())),
                TextField::Number(u64::from(self.there.msg.seq)),
                TextField::Text("slot"),
                TextField::Number(self.there.slot),
            ],
            sink,
        )
    }
}

impl Line for ViewParting {
    ghost use Rattle.cany_check.specs.Texts.CheckLines.{view_line};

    ghost line = { view_line };

    #[tactic(auto, unfolding(crate::specs::Texts::CheckLines::view_line))]
    fn write<K: Sink>(&self, sink: &mut K) -> Result<(), Failed> {
        write_line(
            "view",
            &[
                TextField::Number(u64::from(self.number)),
                TextField::Text("node"),
                TextField::Number(u64::from(self.first.get())),
                TextField::Set(self.members),
                TextField::Text("node"),
                TextField::Number(u64::from(self.second.get())),
                TextField::Set(self.others),
            ],
            sink,
        )
    }
}

impl Line for Accusation {
    ghost use Rattle.cany_check.specs.Texts.CheckLines.{accused_line};

    ghost line = { accused_line };

    #[tactic(auto, unfolding(crate::specs::Texts::CheckLines::accused_line))]
    fn write<K: Sink>(&self, sink: &mut K) -> Result<(), Failed> {
        write_line(
            "accused",
            &[
                TextField::Number(u64::from(self.node.get())),
                TextField::Text("by"),
                TextField::Set(self.by),
                TextField::Text("first"),
                TextField::Number(self.first),
            ],
            sink,
        )
    }
}
