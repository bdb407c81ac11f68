// Nodes that are emitted.

ghost use Rattle.std.specs.Prelude.{◌≡◌, ℕ, IfOk, length, suc, ◌+◌, ◌≤◌, Some, slice_get};
ghost use Rattle.lt_ir.specs.declared.node.Node.TheVariants as node;
ghost use Rattle.lt_emit.specs.Turning.{LeadsBelow, NamesIn, UsesBelow, movement_uses, parts_use, given_uses, target_uses};
ghost use Rattle.lt_emit.specs.Spending.{movement_needs, parts_need, given_needs, call_needs, needs};
ghost use Rattle.lt_emit.specs.Emission.{counts_at, GivesWithin, node_cost, Enters, HasPoint, IsBegun, IsPlaced, IsReserved, IsPatched};

use crate::builder::Builder;
use lt_ir::{Given, Movement, Node, Parts};
use lt_tables::Site;
use std::alloc::{AllocError, Global};

// One more than a register.
fn behind(register: u32) -> Result<u32, AllocError>
    ensures { IfOk result (λ n. n ≡ suc register) }
{
    register.checked_add(1).ok_or(AllocError)
}

impl<'t> Builder<'t> {
    /// The code of a function, of which nothing is there yet but the node that gives back a value.
    pub fn new(alloc: Global, site: &'t Site<'t>) -> Result<Builder<'t>, AllocError>
        ensures { IfOk result (IsBegun site.entry) }
    {
        let mut nodes = Vec::new(alloc);
        nodes.push(Node::Return {
            value: Given::Nothing,
        })?;
        Ok(Builder {
            alloc,
            site,
            tracks: true,
            nodes,
            structs: Vec::new(alloc),
            registers: 0,
        })
    }
}

impl<'t> Builder<'t> {
    /// A node goes before what is there, of which all that it names is part; its number. There are no more than 2^32 nodes and registers: more end as want of memory does.
    pub fn emit(&mut self, node: Node) -> Result<u32, AllocError>
        requires leads { LeadsBelow (length self.old.nodes.items) node }
        requires names { NamesIn (counts_at self.old) node }
        ensures code { GivesWithin self.old self.new result (node_cost node) (IsPlaced node) }
        ensures enters { Enters self.old self.new result }
    {
        let Ok(number) = u32::try_from(self.nodes.len()) else {
            return Err(AllocError);
        };
        let used = registers_of(&node)?;
        self.nodes.push(node)?;
        self.registers = self.registers.max(used);
        Ok(number)
    }
}

impl<'t> Builder<'t> {
    /// A tick whose successor isn't known yet; its number.
    pub fn reserve(&mut self) -> Result<u32, AllocError>
        ensures { IfOk result (λ hole. IsReserved self.old self.new hole) }
    {
        let Ok(number) = u32::try_from(self.nodes.len()) else {
            return Err(AllocError);
        };
        self.nodes.push(Node::Tick { next: number })?;
        Ok(number)
    }

    /// The successor of a tick that was reserved.
    pub fn patch(&mut self, hole: u32, to: u32)
        requires point { HasPoint self.old to }
        requires tick { (next : ℕ) × (slice_get self.old.nodes.items hole ≡ Some (node.Tick next)) }
        ensures { IsPatched self.old self.new hole to }
    {
        if let Some(it) = self.nodes.get_mut(hole as usize) {
            *it = Node::Tick { next: to };
        }
    }
}

// How many registers a movement needs.
fn movement_registers(by: Movement) -> Result<u32, AllocError>
    ensures uses { IfOk result (λ n. movement_uses n by) }
    ensures least { IfOk result (λ n. n ≤ movement_needs by) }
{
    match by {
        Movement::Elements { count, .. } => behind(count),
        Movement::Member { .. } => Ok(0),
    }
}

// How many registers a clash node needs.
fn parts_registers(parts: Parts) -> Result<u32, AllocError>
    ensures uses { IfOk result (λ n. parts_use n parts) }
    ensures least { IfOk result (λ n. n ≤ parts_need parts) }
{
    match parts {
        Parts::Unsequenced { left, right } | Parts::Sequenced { left, right } => {
            behind(left.max(right))
        }
        Parts::Settled { register }
        | Parts::Read { register, .. }
        | Parts::Target { register, .. } => behind(register),
    }
}

// How many registers the value of a call needs.
fn given_registers(given: Given) -> Result<u32, AllocError>
    ensures uses { IfOk result (λ n. given_uses n given) }
    ensures least { IfOk result (λ n. n ≤ given_needs given) }
{
    match given {
        Given::Nothing | Given::Fixed(_) => Ok(0),
        Given::Held(register) => behind(register),
    }
}

// How many registers a call needs.
fn call_registers(to: Option<u32>, first: u32, count: u32) -> Result<u32, AllocError>
    ensures target { IfOk result (λ n. target_uses n to) }
    ensures arguments { IfOk result (λ n. first + count ≤ n) }
    ensures least { IfOk result (λ n. n ≤ call_needs to first count) }
{
    let end = first.checked_add(count).ok_or(AllocError)?;
    match to {
        None => Ok(end),
        Some(register) => Ok(behind(register)?.max(end)),
    }
}

// How many registers a node needs.
fn registers_of(node: &Node) -> Result<u32, AllocError>
    ensures uses { IfOk result (λ n. UsesBelow n node.now) }
    ensures least { IfOk result (λ n. n ≤ needs node.now) }
{
    match node {
        Node::Constant { to, .. } | Node::Address { to, .. } | Node::Stub { to, .. } => behind(*to),
        Node::Load { to, from, .. } | Node::Convert { to, from, .. } => behind((*to).max(*from)),
        Node::Store {
            place,
            value,
            gives,
            ..
        } => behind((*place).max(*value).max(*gives)),
        Node::Move {
            to,
            pointer,
            by,
            ..
        } => Ok(behind((*to).max(*pointer))?.max(movement_registers(*by)?)),
        Node::Subtract {
            to,
            left,
            right,
            ..
        }
        | Node::Apply {
            to,
            left,
            right,
            ..
        }
        | Node::Compare {
            to,
            left,
            right,
            ..
        } => behind((*to).max(*left).max(*right)),
        Node::Copy { place, from, .. } => behind((*place).max(*from)),
        Node::Branch { test, .. } => behind(*test),
        Node::Switch { value, .. } => behind(*value),
        Node::Call {
            to,
            first,
            count,
            ..
        } => call_registers(*to, *first, *count),
        Node::Return { value } => given_registers(*value),
        Node::Clash { parts, .. } => parts_registers(*parts),
        Node::Create { .. }
        | Node::Seal { .. }
        | Node::End { .. }
        | Node::Stop
        | Node::Tick { .. }
        | Node::Mark { .. } => Ok(0),
    }
}
