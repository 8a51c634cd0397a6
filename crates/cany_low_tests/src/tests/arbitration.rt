//! What nodes offer to the bus in a slot, and which frame it carries. All frames are of the second
//! format.
ghost use Rattle.std.specs.Prelude.{IfSome};
ghost use Rattle.can_frame.specs.Identifier.{FitsFormat};
ghost use Rattle.cany_base.specs.declared.format.Format.TheVariants.{Two as second};

use can_arbiter::{Offers, Outcome, arbitrate};
use can_frame::frame_of;
use cany_base::Format::Two;
use cany_base::{Frame, NodeId, NodeSet, Payload};
use std::test::Fail;

/// Who offers, and the identifier, the kind and the bytes of the frame.
type Offer = (u8, u32, bool, &'static [u8]);

/// What nodes offer one after another, and the place of the offer that wins, with the bits of the
/// nodes that send it.
type Row = (&'static [Offer], Option<(usize, u64)>);

const REMOTE: bool = true;

const DATA: bool = false;

const ROWS: [Row; 8] = [
    (&[], None),
    (&[(63, 0x0e00_03f0, DATA, b"")], Some((0, 1 << 63))),
    // The class decides, then the number, then the node of the frame.
    (
        &[(2, 0x1200_0020, DATA, b""), (5, 0x0e00_1c50, DATA, b"")],
        Some((1, 1 << 5)),
    ),
    (
        &[(2, 0x1200_0420, DATA, b""), (5, 0x1200_0050, DATA, b"")],
        Some((1, 1 << 5)),
    ),
    (
        &[(5, 0x1200_0050, DATA, b""), (9, 0x1200_0020, DATA, b"")],
        Some((1, 1 << 9)),
    ),
    // Nodes that offer the same frame send it together.
    (
        &[
            (40, 0x0000_0810, REMOTE, b""),
            (1, 0x0000_0810, REMOTE, b""),
            (4, 0x0000_0810, REMOTE, b""),
            (3, 0x0e00_0030, DATA, b""),
        ],
        Some((0, 1 << 40 | 1 << 4 | 1 << 1)),
    ),
    // Of two payloads under one identifier the bus carries that of the least node.
    (
        &[
            (11, 0x1200_0060, DATA, b"\x01"),
            (9, 0x1200_0060, DATA, b"\x02"),
            (6, 0x1200_0060, DATA, b"\x01"),
        ],
        Some((0, 1 << 11 | 1 << 6)),
    ),
    // A node offers one frame, the last that it has put.
    (
        &[
            (7, 0x0e00_0070, DATA, b""),
            (8, 0x1200_0080, DATA, b""),
            (7, 0x1200_0470, DATA, b""),
        ],
        Some((1, 1 << 8)),
    ),
];

fn offered(offer: &Offer) -> Option<(NodeId, Frame)>
    ensures { IfSome result (λ offered. FitsFormat second offered.1) }
{
    let (by, ident, remote, bytes) = *offer;
    let frame = frame_of(Two, ident, remote, Payload::of(bytes)?).ok()?;
    Some((NodeId::new(by)?, frame))
}

fn put_all(row: &[Offer]) -> Option<Offers> {
    let mut offers = Offers::none(Two);
    for offer in row {
        let (by, frame) = offered(offer)?;
        offers.put(by, frame);
    }
    Some(offers)
}

/// The frame that the bus carries, and who sends it.
fn carried(offers: &Offers) -> Option<(Frame, NodeSet)> {
    match arbitrate(offers) {
        Outcome::Idle => None,
        Outcome::Won { frame, senders } => Some((frame, senders)),
    }
}

/// The bus carries what the row says. Node 62 offers nothing in any row.
fn is_decided(row: &Row) -> Option<bool> {
    let (all, winner) = *row;
    let offers = put_all(all)?;
    let is_free = offers.get(NodeId::of_index(62)).is_none();
    let found = carried(&offers);
    let Some((place, bits)) = winner else {
        return Some(is_free && found.is_none());
    };
    let (by, frame) = offered(all.get(place)?)?;
    let is_offered = offers.get(by) == Some(frame);
    Some(is_free && is_offered && found == Some((frame, NodeSet::of_bits(bits))))
}

#[test]
fn offers_are_decided(rt: HostRuntime) -> Result<(), Fail> {
    for row in &ROWS {
        assert!(rt; is_decided(row).ok_or("no offer")?);
    }
    Ok(())
}
