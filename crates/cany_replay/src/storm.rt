//! The scenario of a storm: its sends and its faults are drawn from the words of a generator that
//! the number starts.
ghost use Rattle.std.specs.Prelude.{◌≡◌, ◌<◌, ◌≤◌, IfOk, length};
ghost use Rattle.cany_model.specs.Rules.Messages.{messages_of};
ghost use Rattle.cany_text.specs.NodesText.{all_nodes};
ghost use Rattle.cany_replay.specs.Storm as storm;

use arrayvec::ArrayVec;
use cany_base::{
    Format, Memory, NodeId, NodeSet, Params, Payload, Place, Rule, Scenario, SendAsk, Service,
    Verdict,
};
use cany_message::keys_of;
use rand_core::utils::NextWord;
use rand_pcg::Lcg64Xsh32;
use std::alloc::Global;

/// How many sends there are.
const SENDS: usize = 200;

/// How many of the messages have a rule: every fifth one.
const FRAME_RULES: usize = 40;

/// The parameters of every storm.
fn storm_params() -> Params
    ensures { result ≡ storm.storm_params }
{
    Params {
        format: Format::One,
        nodes: 8,
        lag: 0,
        omit: 2,
        errors: 2,
        bound: 211,
        cycle: 422,
        life: 211,
        silence: 423,
        confirm: 10,
        slots: 20_000,
    }
}

/// All nodes of the bus.
#[tactic(auto, unfolding(cany_base::specs::Nodes::those_where, cany_base::specs::Nodes::bits_where))]
fn members() -> NodeSet
    ensures { result ≡ all_nodes storm.storm_params }
{
    NodeSet::of_bits(0xff)
}

/// The generator of the storm of a number.
#[tactic(auto, unfolding(crate::specs::Storm::generator_of))]
fn generator_of(number: u32) -> Lcg64Xsh32
    ensures { result ≡ storm.generator_of number }
{
    Lcg64Xsh32::new(u64::from(number), 1)
}

/// The remainder of the next word.
#[tactic(auto, unfolding(crate::specs::Storm::next_word))]
fn below(words: &mut Lcg64Xsh32, n: u32) -> u32
    requires { 0 < n }
    ensures drawn { (result, words.new) ≡ storm.below n words.old }
    ensures small { result < n }
{
    words.next_word() % n
}

fn service_at(n: u32) -> Service
    ensures { result ≡ storm.service_at n }
{
    match n {
        0 => Service::Ed,
        1 => Service::Rel,
        _ => Service::Tot,
    }
}

/// The bytes of a payload: how many, and then each.
fn payload_drawn(words: &mut Lcg64Xsh32) -> Payload
    ensures { (result, words.new) ≡ storm.payload_drawn words.old }
{
    let count = below(words, 9);
    let mut bytes: ArrayVec<u8, 8> = ArrayVec::new();
    for _ in 0..count {
        bytes.push(below(words, 256) as u8);
    }
    Payload::of(bytes.as_slice()).unwrap()
}

/// The send of a place in the file.
#[tactic(auto, unfolding(crate::specs::Storm::send_drawn))]
fn send_drawn(words: &mut Lcg64Xsh32, i: usize) -> SendAsk
    requires { i < 200 }
    ensures { (result, words.new) ≡ storm.send_drawn i words.old }
{
    let after = u64::from(below(words, 80));
    let node = NodeId::of_index(below(words, 8) as usize);
    let service = service_at(below(words, 3));
    let payload = payload_drawn(words);
    SendAsk {
        slot: 90 * i as u64 + after,
        node,
        service,
        payload,
    }
}

/// The sends, in file order.
fn sends_drawn(alloc: Global, words: &mut Lcg64Xsh32) -> Result<Vec<SendAsk>, Memory>
    ensures { IfOk result (λ sends. (sends.items, words.new) ≡ storm.in_order storm.send_drawn 200 words.old) }
{
    let mut sends = Vec::with_capacity(alloc, SENDS)?;
    for i in 0..SENDS {
        sends.push(send_drawn(words, i))?;
    }
    Ok(sends)
}

/// How the frame of a rule fares: lost, or rejected by these nodes.
fn verdict_at(n: u32, reject: u32) -> Verdict
    ensures { result ≡ storm.verdict_at n reject }
{
    if n == 0 {
        Verdict::Lost
    } else {
        Verdict::Partial(NodeSet::of_bits(u64::from(reject)))
    }
}

/// The rule for the first attempt to carry the data frame of the message of a send.
#[tactic(auto, unfolding(crate::specs::Storm::rule_drawn))]
fn rule_drawn(words: &mut Lcg64Xsh32, send: &SendAsk, seq: u16) -> Rule
    ensures { (result, words.new) ≡ storm.rule_drawn (record {
      slot = send.now.slot;
      origin = send.now.node;
      seq = seq;
      service = send.now.service;
      payload = send.now.payload;
    }) words.old }
{
    let verdict = below(words, 2);
    let reject = below(words, 256);
    Rule {
        place: Place::FrameNth {
            class: send.service.class(),
            number: seq,
            node: send.node,
            nth: 1,
        },
        verdict: verdict_at(verdict, reject),
        stop: NodeSet::of_bits(0),
    }
}

/// The rules of every fifth message, in file order.
fn frame_rules_drawn(
    alloc: Global,
    words: &mut Lcg64Xsh32,
    sends: &[SendAsk],
) -> Result<Vec<Rule>, Memory>
    requires { length sends.now ≡ 200 }
    ensures { IfOk result (λ rules. (rules.items, words.new) ≡ storm.in_order (storm.fifth_rule_drawn (messages_of sends.now)) 40 words.old) }
{
    let keys = keys_of(alloc, sends)?;
    let keys = keys.as_slice();
    let mut rules = Vec::with_capacity(alloc, FRAME_RULES + 1)?;
    for q in 0..FRAME_RULES {
        let i = 5 * q;
        let Rule {
            place,
            verdict,
            stop,
        } = rule_drawn(words, &sends[i], keys[i].seq);
        rules.push(Rule {
            place,
            verdict,
            stop,
        })?;
    }
    Ok(rules)
}

/// Node 7 alone.
#[tactic(auto, unfolding(cany_base::specs::Nodes::those_where, cany_base::specs::Nodes::bits_where))]
fn last_node() -> NodeSet
    ensures { result ≡ storm.stop_rule.stop }
{
    NodeSet::of_bits(0x80)
}

/// The scenario of the storm of a number.
///
/// Promise: the scenario is exactly the one that the definition draws from the number.
///
/// Shown by: `.ci/calls.py`, `a_write_of_a_summary_fails`, `a_rule_for_each_fourth_message`,
/// `a_partial_rule_rejects_half`.
///
/// # Errors
///
/// `Memory`: out of memory.
#[tactic(auto, unfolding(crate::specs::Storm::storm_scenario))]
pub fn storm_scenario(alloc: Global, number: u32) -> Result<Scenario, Memory>
    ensures { IfOk result (λ scenario. scenario ≡ storm.storm_scenario number) }
{
    let mut words = generator_of(number);
    let sends = sends_drawn(alloc, &mut words)?;
    let mut rules = frame_rules_drawn(alloc, &mut words, &sends)?;
    rules.push(Rule {
        place: Place::At { slot: 10_000 },
        verdict: Verdict::Clean,
        stop: last_node(),
    })?;
    Ok(Scenario::of_parts(
        storm_params(),
        members(),
        sends,
        rules,
        Vec::new(alloc),
        Vec::new(alloc),
        Vec::new(alloc),
        None,
    ))
}
