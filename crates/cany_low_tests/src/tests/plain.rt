//! The plain types.
use cany_base::{Action, Actions, Format, NodeSet, Payload};
use std::test::Fail;

/// A format, bytes, and the bits of the set that they are a vector of.
type Vector = (Format, &'static [u8], Option<u64>);

const VECTORS: [Vector; 6] = [
    (Format::One, &[0, 0, 0, 7], Some(7)),
    (Format::Two, &[0, 0, 0, 0, 0, 0, 0, 7], Some(7)),
    (Format::Two, &[0, 0, 0, 7], None),
    (Format::One, &[0, 0, 0, 0, 0, 0, 0, 7], None),
    (Format::One, &[1, 2], None),
    (Format::Two, &[0x80, 0, 0, 0, 0, 0, 0, 1], Some(1 << 63 | 1)),
];

fn bits_of(format: Format, bytes: &[u8]) -> Option<u64> {
    Some(Payload::of(bytes)?.as_vector(format)?.bits())
}

/// Whether these bytes are the vector of the nodes 0, 1 and 2.
fn is_of_three(format: Format, bytes: &[u8]) -> bool {
    Payload::of(bytes) == Some(Payload::vector(NodeSet::all(3), format))
}

#[test]
fn a_vector_has_its_lowest_nodes_last(rt: HostRuntime) {
    for (format, bytes, bits) in &VECTORS {
        let is_made = is_of_three(*format, bytes) == (*bits == Some(7));
        assert!(rt; is_made && bits_of(*format, bytes) == *bits);
    }
}

/// No clause says that there is memory.
#[test]
fn memory_is_there(rt: HostRuntime) -> Result<(), Fail> {
    let mut actions = Actions::build(rt.alloc(), 2)?;
    actions.push(Action::Withdraw { ident: 7 });
    assert!(rt; actions.room() == 2 && matches!(actions.get(0), Action::Withdraw { ident: 7 }));
    Ok(())
}
