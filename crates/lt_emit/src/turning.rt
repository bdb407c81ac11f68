//! Nodes that are turned round: the last that was emitted is the first.

ghost use Rattle.std.specs.Prelude.{◌≡◌, map};
ghost use Rattle.lt_emit.specs.Turning.{turned, turned_arm};
ghost use Rattle.lt_emit.specs.Turned.{point_of, turned_round, IsNoSwitch};

use lt_ir::{Arm, Node};
use lt_model::Sequence;
use std::mem;

/// Nodes in turned order, with the points of their successors, where the last one has this number. They are turned in place, and room
/// to spare is given back: the code of a large function takes most of the memory.
pub fn turned_round(nodes: Vec<Node>, last: u32) -> Vec<Node>
    ensures { result.items ≡ turned_round last nodes.items }
{
    let mut nodes = nodes;
    nodes.reverse();
    'nodes: for node in nodes.iter_mut() {
        *node = turned(mem::replace(node, Node::Stop), last);
    }
    nodes.shrink_to_fit();
    nodes
}

// A node with the points of its successors.
fn turned(node: Node, last: u32) -> Node
    ensures { result ≡ turned (point_of last) node }
{
    match node {
        Node::Switch {
            value,
            arms,
            table,
            default,
        } => Node::Switch {
            value,
            arms: turned_arms(arms, last),
            table: turned_arms(table, last),
            default: last.saturating_sub(default),
        },
        mut node => {
            turn(&mut node, last);
            node
        }
    }
}

// The arms of a switch, with the points to which they lead.
fn turned_arms(arms: Sequence<Arm>, last: u32) -> Sequence<Arm>
    ensures { result ≡ map (turned_arm (point_of last)) arms }
{
    let mut arms = arms.into_vec();
    'arms: for arm in arms.iter_mut() {
        arm.next = last.saturating_sub(arm.next);
    }
    Sequence::new(arms)
}

// A node that is no switch leads to the points of its successors.
fn turn(node: &mut Node, last: u32)
    requires { IsNoSwitch node.old }
    ensures { node.new ≡ turned (point_of last) node.old }
{
    match node {
        Node::Constant { next, .. } => turn_number(next, last),
        Node::Address { next, .. } => turn_number(next, last),
        Node::Load { next, .. } => turn_number(next, last),
        Node::Store { next, .. } => turn_number(next, last),
        Node::Move { next, .. } => turn_number(next, last),
        Node::Subtract { next, .. } => turn_number(next, last),
        Node::Apply { next, .. } => turn_number(next, last),
        Node::Convert { next, .. } => turn_number(next, last),
        Node::Compare { next, .. } => turn_number(next, last),
        Node::Copy { next, .. } => turn_number(next, last),
        Node::Create { next, .. } => turn_number(next, last),
        Node::Seal { next, .. } => turn_number(next, last),
        Node::End { next, .. } => turn_number(next, last),
        Node::Call { next, .. } => turn_number(next, last),
        Node::Stub { next, .. } => turn_number(next, last),
        Node::Mark { next, .. } => turn_number(next, last),
        Node::Clash { next, .. } => turn_number(next, last),
        Node::Tick { next } => turn_number(next, last),
        Node::Branch { on, off, .. } => {
            turn_number(on, last);
            turn_number(off, last);
        }
        Node::Switch { .. } | Node::Stop | Node::Return { .. } => {}
    }
}

// The point of a node, in place of its number.
fn turn_number(number: &mut u32, last: u32)
    ensures { number.new ≡ point_of last number.old }
{
    *number = last.saturating_sub(*number);
}
