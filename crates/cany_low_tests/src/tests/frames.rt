//! Frames and their identifiers, as they are on a bus.
use can_frame::{
    FrameFault, class_of, frame_of, has_incarnation, identifier, is_remote, key, number_fits,
    tells_incarnation,
};
use cany_base::Class::{Accept, Confirm, Ed, Els, Fda, Join, Leave, Rel, Rha, Tot};
use cany_base::Format::{One, Two};
use cany_base::{Class, Format, Payload};
use std::test::Fail;

/// A format, the class of a frame, the kind of such frames, number, node and incarnation of the
/// frame, its bytes, and its identifier.
type Example = (Format, Class, bool, (u16, u8, u8), &'static [u8], u32);

const REMOTE: bool = true;

const DATA: bool = false;

/// The frame is made of its identifier, kind and bytes, and has this identifier, and the key that
/// goes with it.
fn is_made(example: &Example, payload: Payload) -> Result<bool, FrameFault> {
    let (format, class, remote, (number, node, inc), _, ident) = *example;
    let frame = frame_of(format, ident, remote, payload)?;
    let encoded = identifier(format, &frame);
    let order = key(format, &frame);
    let found = [
        u64::from(encoded),
        order,
        u64::from(frame.number),
        u64::from(frame.node.get()),
        u64::from(frame.inc),
    ];
    let wanted = [
        u64::from(ident),
        2 * u64::from(ident) + u64::from(remote),
        u64::from(number),
        u64::from(node),
        u64::from(inc),
    ];
    Ok(found == wanted && frame.class == class && frame.payload == payload)
}

/// The identifier tells the class, of which there is no frame of the other kind.
fn tells_class(example: &Example, payload: Payload) -> bool {
    let (format, class, remote, _, _, ident) = *example;
    let is_told = [
        class_of(ident) == Some(class),
        is_remote(class) == remote,
        tells_incarnation(ident) == has_incarnation(class),
        frame_of(format, ident, !remote, payload) == Err(FrameFault::Kind),
    ];
    is_told == [true; 4]
}

const FOUR: &[u8] = b"\x00\x00\x00\x07";

const EIGHT: &[u8] = b"\x80\x00\x00\x00\x00\x00\x00\x07";

const EXAMPLES: [Example; 29] = [
    (One, Accept, REMOTE, (5, 3, 0), b"", 0x0000_0a30),
    (Two, Accept, REMOTE, (5, 3, 0), b"", 0x0000_1430),
    (One, Rha, DATA, (5, 3, 0), FOUR, 0x0200_0a30),
    (Two, Rha, DATA, (5, 3, 0), EIGHT, 0x0200_1430),
    (One, Els, REMOTE, (5, 3, 0), b"", 0x0400_0a30),
    (Two, Els, REMOTE, (5, 3, 0), b"", 0x0400_1430),
    (One, Fda, REMOTE, (5, 3, 0), b"", 0x0600_0a30),
    (Two, Fda, REMOTE, (5, 3, 0), b"", 0x0600_1430),
    (One, Join, REMOTE, (5, 3, 0), b"", 0x0800_0a30),
    (Two, Join, REMOTE, (5, 3, 0), b"", 0x0800_1430),
    (One, Leave, REMOTE, (5, 3, 0), b"", 0x0a00_0a30),
    (Two, Leave, REMOTE, (5, 3, 0), b"", 0x0a00_1430),
    (One, Confirm, REMOTE, (5, 3, 0), b"", 0x0c00_0a30),
    (Two, Confirm, REMOTE, (5, 3, 0), b"", 0x0c00_1430),
    (One, Tot, DATA, (5, 3, 0), b"12345678", 0x0e00_0a30),
    (Two, Tot, DATA, (5, 3, 0), b"12345678", 0x0e00_1430),
    (One, Rel, DATA, (5, 3, 0), b"", 0x1000_0a30),
    (Two, Rel, DATA, (5, 3, 0), b"", 0x1000_1430),
    (One, Ed, DATA, (5, 3, 0), b"\x01", 0x1200_0a30),
    (Two, Ed, DATA, (5, 3, 0), b"\x01", 0x1200_1430),
    // The first and the last of the fields.
    (One, Ed, DATA, (0, 1, 0), b"", 0x1200_0010),
    (One, Ed, DATA, (65535, 31, 0), b"", 0x13ff_fff0),
    (Two, Ed, DATA, (32767, 63, 0), b"", 0x13ff_fff0),
    // An incarnation stands in the lowest four bits, and four classes tell one.
    (One, Join, REMOTE, (2, 1, 1), b"", 0x0800_0411),
    (Two, Join, REMOTE, (2, 1, 1), b"", 0x0800_0811),
    (One, Rha, DATA, (5, 3, 15), FOUR, 0x0200_0a3f),
    (One, Els, REMOTE, (5, 3, 15), b"", 0x0400_0a3f),
    (One, Join, REMOTE, (5, 3, 15), b"", 0x0800_0a3f),
    (One, Leave, REMOTE, (5, 3, 15), b"", 0x0a00_0a3f),
];

#[test]
fn frames_of_every_class(rt: HostRuntime) -> Result<(), Fail> {
    for example in &EXAMPLES {
        let payload = Payload::of(example.4).ok_or("more than 8 bytes")?;
        assert!(rt; is_made(example, payload)? && tells_class(example, payload));
    }
    Ok(())
}

/// A format, an identifier, the kind and the bytes of no frame, and why it is none.
type Refusal = (Format, u32, bool, &'static [u8], FrameFault);

const REFUSED: [Refusal; 12] = [
    (One, 0x1400_0000, DATA, b"", FrameFault::Class),
    (One, 0x0000_0a31, REMOTE, b"", FrameFault::Pad),
    (One, 0x0000_0a3f, REMOTE, b"", FrameFault::Pad),
    (One, 0x0600_0a3f, REMOTE, b"", FrameFault::Pad),
    (One, 0x0c00_0a3f, REMOTE, b"", FrameFault::Pad),
    (One, 0x0e00_0a3f, DATA, b"1", FrameFault::Pad),
    (One, 0x1000_0a3f, DATA, b"", FrameFault::Pad),
    (One, 0x1200_0a3f, DATA, b"", FrameFault::Pad),
    (One, 0x0000_0a30, DATA, b"", FrameFault::Kind),
    (One, 0x0200_0200, DATA, b"abc", FrameFault::Length),
    (One, 0x0200_0200, DATA, b"abcdefgh", FrameFault::Length),
    (Two, 0x0200_0200, DATA, b"abcd", FrameFault::Length),
];

fn is_refused(row: &Refusal) -> bool {
    let (format, ident, remote, bytes, fault) = *row;
    match Payload::of(bytes) {
        Some(payload) => frame_of(format, ident, remote, payload) == Err(fault),
        None => false,
    }
}

#[test]
fn refusals(rt: HostRuntime) {
    for row in &REFUSED {
        assert!(rt; is_refused(row));
    }
}

#[test]
fn numbers_fit_their_field(rt: HostRuntime) {
    assert!(rt; number_fits(One, u16::MAX) && number_fits(Two, 32_767));
    assert!(rt; !number_fits(Two, 32_768));
}
