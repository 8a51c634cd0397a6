//! Arbitration over two lines, which no command calls.
ghost use Rattle.std.specs.Prelude.{◌≡◌};
ghost use Rattle.cany_base.specs.declared.format.Format.TheVariants.{Two};

use anyhow::Result;
use can_arbiter::Offers;
use cany_base::{Class, Format, Frame, NodeId, NodeSet, Payload};
use cany_media::{Line, MediaOutcome, levels};

/// The number of the node that all frames here name.
const ORIGIN: usize = 0;

/// The line of a word. That of a split is a number, whose bits are the nodes of one part.
fn line_of(word: &str) -> Result<Line> {
    match word {
        "whole" => Ok(Line::Whole),
        "down" => Ok(Line::Down),
        bits => Ok(Line::Split(NodeSet::of_bits(bits.parse::<u64>()?))),
    }
}

/// Puts the offer of a word: the node, a colon, and the number of the frame that it offers.
fn put(offers: &mut Offers, word: &str) -> Result<()>
    requires { offers.old.format ≡ Two }
    ensures { offers.new.format ≡ Two }
{
    let Some((by, number)) = word.split_once(':') else {
        anyhow::bail!("no offer: {word}")
    };
    let Some(by) = NodeId::new(by.parse::<u8>()?) else {
        anyhow::bail!("no node: {word}")
    };
    let frame = Frame {
        class: Class::Tot,
        number: u16::from(number.parse::<u8>()?),
        node: NodeId::of_index(ORIGIN),
        inc: 0,
        payload: Payload::empty(),
    };
    offers.put(by, frame);
    Ok(())
}

/// What comes of these offers on a bus of so many nodes with two such lines.
pub(crate) fn outcome_over(
    nodes: &str,
    lines: (&str, &str),
    words: &[&str],
) -> Result<MediaOutcome> {
    let mut offers = Offers::none(Format::Two);
    for word in words {
        put(&mut offers, word)?;
    }
    let lines = (line_of(lines.0)?, line_of(lines.1)?);
    Ok(levels(&offers, lines, nodes.parse::<u8>()?))
}
