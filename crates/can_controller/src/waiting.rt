ghost use Rattle.std.specs.Prelude.{◌≡◌, ◌≢◌, ◌<◌, ◌+◌, ◌==◌, ◌↔◌, ◌⊎◌, true, false, not, [], length, filter, slice_get, All, IfOk, IfErr, IfSome, IfNone};
ghost use Rattle.std.specs.List.{list_any};
ghost use Rattle.cany_base.specs.Frame.{FrameParts, has_incarnation, identifier_of, key_of};
ghost use Rattle.cany_model.specs.Bus.Frames.{identity_of};
ghost use Rattle.cany_model.specs.Bus.Slot.{least_frame, after_share};
ghost use Rattle.cany_model.specs.Bus.State.{NodeState};
ghost use Rattle.cany_model.specs.Bus.Waiting.{waits, with_frame, without};
ghost use Rattle.can_frame.specs.Identifier.{FitsFormat, FitsIdentifier};
ghost use Rattle.can_controller.specs.Waiting.{IsAscending, IsPlaceOf, IsGapFor, HasRoomFor, identity_number};

use crate::identity::same_identity;
use can_frame::{identifier, without_incarnation};
use cany_base::{Format, Frame, Memory};
use cany_model::Share;
use std::alloc::Global;
use std::marker::Model;

/// The frames that a controller waits to send, at most one of an identity. They stand ascending by
/// identity, which is the order in which they win, in memory that is all taken at the start.
#[derive(Drop)]
pub(crate) struct Waiting {
    format: Format,
    frames: Vec<Frame>,
    room: usize,
}

impl Model for Waiting {
    ghost use Rattle.std.specs.Prelude.{vec_capacity};
    ghost use Rattle.can_controller.specs.Waiting.{WaitingFrames, IsKept};

    ghost Value = { WaitingFrames };

    ghost view = { λ w. record { format = w.format; frames = w.frames.items; room = w.room } };

    ghost invariant = { λ w. IsKept w.format w.frames.items w.room (vec_capacity w.frames) };
}

/// The identifier of a frame but for the incarnation: it tells the frame's identity.
fn identity_number(format: Format, frame: &Frame) -> u32
    requires { FitsFormat format frame.now }
    ensures number { result ≡ identity_number format frame.now }
    ensures fits { FitsIdentifier format frame.now }
{
    identifier(format, frame) - u32::from(frame.inc)
}

/// A frame that fits the format fits an identifier.
fn fits_identifier(format: Format, frame: &Frame)
    requires { FitsFormat format frame.now }
    ensures { FitsIdentifier format frame.now }
{
    // A read of a field gives the proof what holds of all fields.
    let _inc = frame.inc;
}

/// The place of the frame of this identity, or else the place at which it would stand.
///
/// It is written by hand since std's search may ask for the key of any frame, and only one that
/// fits has an identifier.
fn find(format: Format, frames: &[Frame], number: u32) -> Result<usize, usize>
    requires fit { All (FitsIdentifier format) frames.now }
    requires ascending { IsAscending format frames.now }
    ensures found { IfOk result (λ place. IsPlaceOf (identity_number format) number place frames.now) }
    ensures absent { IfErr result (λ place. IsGapFor (identity_number format) number place frames.now) }
{
    let mut low = 0;
    let mut high = frames.len();
    while low < high {
        let middle = low + (high - low) / 2;
        let there = identity_number(format, &frames[middle]);
        if there == number {
            return Ok(middle);
        }
        if there < number {
            low = middle + 1;
        } else {
            high = middle;
        }
    }
    Err(low)
}

/// The place of the frame of this identifier, if there is one.
fn place_of(format: Format, frames: &[Frame], ident: u32) -> Option<usize>
    requires fit { All (FitsIdentifier format) frames.now }
    requires ascending { IsAscending format frames.now }
    ensures found { IfSome result (λ place. IsPlaceOf (identifier_of format) ident place frames.now) }
    ensures absent { IfNone result (All (λ f. identifier_of format f ≢ ident) frames.now) }
{
    match find(format, frames, without_incarnation(ident)) {
        Ok(place) => {
            if identifier(format, &frames[place]) == ident {
                Some(place)
            } else {
                None
            }
        }
        Err(_) => None,
    }
}

impl Waiting {
    /// No frame waits, and `room` of them may.
    pub(crate) fn build(alloc: Global, format: Format, room: usize) -> Result<Waiting, Memory>
        ensures { IfOk result (λ waiting. waiting ≡ record { format = format; frames = []; room = room }) }
    {
        let frames = Vec::with_capacity(alloc, room)?;
        Ok(Waiting {
            format,
            frames,
            room,
        })
    }

    /// Puts the frame in, in place of the one of its identity if there is one.
    #[inline(always)]
    pub(crate) fn ask(&mut self, frame: Frame)
        requires fits { FitsFormat self.old.format frame }
        requires room { HasRoomFor frame self.old.frames self.old.room }
        ensures { self.new ≡ record self.old { frames = with_frame frame self.old.frames } }
    {
        // Mostly nothing waits.
        if self.frames.is_empty() {
            fits_identifier(self.format, &frame);
            self.frames.push_reserved(frame);
        } else {
            self.ask_among(frame);
        }
    }

    /// The same, where others may wait.
    fn ask_among(&mut self, frame: Frame)
        requires fits { FitsFormat self.old.format frame }
        requires room { HasRoomFor frame self.old.frames self.old.room }
        ensures { self.new ≡ record self.old { frames = with_frame frame self.old.frames } }
    {
        let number = identity_number(self.format, &frame);
        match find(self.format, self.frames.as_slice(), number) {
            Ok(place) => self.frames[place] = frame,
            Err(place) => {
                // The room was made at the start.
                let _ = self.frames.insert(place, frame);
            }
        }
    }

    /// Removes the frame of this identifier, if there is one.
    pub(crate) fn withdraw(&mut self, ident: u32)
        ensures by_identifier { let others = filter (λ f. not (identifier_of self.old.format f == ident)) self.old.frames in
            self.new ≡ record self.old { frames = others } }
        ensures by_identity { (f : FrameParts) → FitsIdentifier self.old.format f → has_incarnation f.class ≡ false →
            identifier_of self.old.format f ≡ ident →
            self.new.frames ≡ without (identity_of f) self.old.frames }
    {
        if let Some(place) = place_of(self.format, self.frames.as_slice(), ident) {
            self.frames.remove(place);
        }
    }

    /// Removes all frames, and keeps the memory.
    pub(crate) fn clear(&mut self)
        ensures { self.new ≡ record self.old { frames = [] } }
    {
        self.frames.clear();
    }

    /// Removes the frame that the controller sent with success, if the share says so.
    #[tactic(auto, unfolding(cany_model::specs::Bus::Slot::after_share))]
    pub(crate) fn settle(&mut self, share: &Share)
        ensures frames { (node : NodeState) → node.waiting ≡ self.old.frames →
            self.new.frames ≡ (after_share share.now node).waiting }
        ensures format { self.new.format ≡ self.old.format }
        ensures room { self.new.room ≡ self.old.room }
    {
        match share {
            Share::Confirmed(frame) => self.drop_frame(frame),
            Share::Idle | Share::Took(_) | Share::Rejected | Share::Errored => {}
        }
    }

    /// Removes the frame of this frame's identity, if there is one. This frame may be one that fits
    /// no identifier.
    #[inline(always)]
    pub(crate) fn drop_frame(&mut self, frame: &Frame)
        ensures { let others = without (identity_of frame.now) self.old.frames in
            self.new ≡ record self.old { frames = others } }
    {
        // Mostly a node waits with the frame alone that it sends.
        if self.frames.len() == 1 && same_identity(frame, &self.frames[0]) {
            self.frames.clear();
        } else {
            self.drop_among(frame);
        }
    }

    /// The same, where others may wait.
    fn drop_among(&mut self, frame: &Frame)
        ensures { let others = without (identity_of frame.now) self.old.frames in
            self.new ≡ record self.old { frames = others } }
    {
        self.frames.retain(|other| !same_identity(frame, other));
    }

    /// Whether a frame of this identifier waits.
    pub(crate) fn waits(&self, ident: u32) -> bool
        ensures by_identifier { result ≡ list_any (λ f. identifier_of self.now.format f == ident) self.now.frames }
        ensures by_identity { (f : FrameParts) → FitsIdentifier self.now.format f → has_incarnation f.class ≡ false →
            identifier_of self.now.format f ≡ ident →
            result ≡ waits (identity_of f) self.now.frames }
    {
        place_of(self.format, self.frames.as_slice(), ident).is_some()
    }

    /// How many frames more may wait.
    pub(crate) fn spare(&self) -> usize
        ensures { result + length self.now.frames ≡ self.now.room }
    {
        self.room - self.frames.len()
    }

    /// The frames ascend, as they are kept.
    pub(crate) fn ascend(&self)
        ensures { IsAscending self.now.format self.now.frames }
    {
        // A read of a field gives the proof what holds of all fields.
        let _frames = &self.frames;
    }

    /// Each frame fits an identifier, as it is kept.
    pub(crate) fn fit(&self)
        ensures { All (FitsIdentifier self.now.format) self.now.frames }
    {
        // A read of a field gives the proof what holds of all fields.
        let _frames = &self.frames;
    }

    /// Whether no frame waits.
    pub(crate) fn is_empty(&self) -> bool
        ensures { (result ≡ true) ↔ (self.now.frames ≡ []) }
    {
        self.frames.is_empty()
    }

    /// The frame that wins over the others.
    pub(crate) fn first(&self) -> Option<Frame>
        ensures head { result ≡ slice_get self.now.frames 0 }
        ensures least { result ≡ least_frame self.now.frames }
        ensures least_key { let key = key_of self.now.format in
            IfSome result (λ f. All (λ g. (g ≡ f) ⊎ (key f < key g)) self.now.frames) }
        ensures fits { IfSome result (FitsIdentifier self.now.format) }
    {
        self.frames.first().copied()
    }
}
