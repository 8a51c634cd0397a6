ghost use Rattle.std.specs.Prelude.{◌≡◌, ◌↔◌};
ghost use Rattle.cany_base.specs.Frame.{FrameParts};
ghost use Rattle.can_frame.specs.Decoding.{IsFrameOf, IsFirstFault};
ghost use Rattle.can_frame.specs.declared.decoding.FrameFault.{FrameFault};

use crate::class::{class_of, fits_class, has_incarnation, is_remote};
use crate::encoding::IncarnationField;
use crate::layout::take_fields;
use cany_base::{Format, Frame, Payload};
use thiserror::Error;

/// Why an identifier, a kind and a payload are no frame.
#[derive(Clone, Copy, Debug, PartialEq, Eq, Error)]
pub enum FrameFault {
    #[error("the identifier names no class")]
    Class,
    #[error("the class tells no incarnation, and the identifier's lowest four bits are not zero")]
    Pad,
    #[error("the kind is not that of the class")]
    Kind,
    #[error("the payload's length is not one of the class")]
    Length,
}

/// The frame of this identifier, kind and payload: what a receiver makes of the bits on a bus.
///
/// Promise: it answers a frame exactly where the frame has this identifier, kind and payload, fits
/// the format, and carries what its class carries there. Otherwise the fault is the first of the
/// four that holds.
///
/// Shown by: `refusals`, `frames_of_every_class`, `low_bits_are_not_tested`,
/// `kind_comes_before_pad`. Nothing in the program runs it.
///
/// # Errors
///
/// `Class`: no class has the number in the bits above the lowest 25. `Pad`: the class tells no
/// incarnation, and the lowest four bits are not 0. `Kind`: the class has frames of the other kind.
/// `Length`: frames of the class do not carry these bytes in the format. Each comes exactly where
/// it holds and none before it does.
pub fn frame_of(
    format: Format,
    ident: u32,
    remote: bool,
    payload: Payload,
) -> Result<Frame, FrameFault>
    ensures frame { (f : FrameParts) → (result ≡ Ok f) ↔ IsFrameOf format ident remote payload f }
    ensures fault { (e : FrameFault) → (result ≡ Err e) ↔ IsFirstFault format e ident remote payload }
{
    let Some(class) = class_of(ident) else {
        return Err(FrameFault::Class);
    };
    let inc = IncarnationField::take(ident) as u8;
    if inc != 0 && !has_incarnation(class) {
        return Err(FrameFault::Pad);
    }
    if remote != is_remote(class) {
        return Err(FrameFault::Kind);
    }
    if !fits_class(format, class, &payload) {
        return Err(FrameFault::Length);
    }
    let (number, node) = take_fields(format, ident);
    Ok(Frame {
        class,
        number,
        node,
        inc,
        payload,
    })
}
