// Where the labels of a `switch` lead, C11 6.8.4.2.

ghost use Rattle.std.specs.Prelude.{◌≡◌, IfOk, OnOk, map};
ghost use Rattle.std.specs.Ordering.{int_cmp};
ghost use Rattle.std.specs.BTreeMap.{IsOrdered};
ghost use Rattle.lt_ir.specs.Tables.{IsTableOf};
ghost use Rattle.lt_emit.specs.Emission.{GivesWithin, costs, HasPoint};
ghost use Rattle.lt_lower.specs.Stands.{HasArms, PutsLabels, ChoiceStands, FindsArms, entry_arm};

use crate::flow::Entered;
use lt_emit::Builder;
use lt_ir::{Arm, Node};
use lt_model::Sequence;
use lt_tree::typed::Label;
use std::alloc::{AllocError, Global};
use std::collections::BTreeMap;

/// Labels of the first statement that is entered. The arms stand in turned order.
pub fn put_labels(all: &mut Entered, labels: &[Label]) -> Result<(), AllocError>
    ensures { OnOk result (PutsLabels all.old all.new labels.now) }
{
    'labels: for at in (0..labels.len()).rev() {
        match labels[at] {
            Label::Case(value) => all.arms.push(Arm {
                value,
                next: all.from,
            })?,
            Label::Default => all.default = Some(all.from),
        }
    }
    Ok(())
}

/// The choice of a `switch`, whose arms stand in the order of the text.
pub fn choice(b: &mut Builder, arms: Vec<Arm>, default: u32) -> Result<u32, AllocError>
    requires arms { HasArms b.old arms.items }
    requires default { HasPoint b.old default }
    ensures { GivesWithin b.old b.new result (costs 1 1) (ChoiceStands arms.items default) }
{
    let table = by_value(b.alloc, arms.as_slice())?;
    b.emit(Node::Switch {
        value: 0,
        arms: Sequence::new(arms),
        table: Sequence::new(table),
        default,
    })
}

// Cases by value, each value once: the first of the text.
fn by_value(alloc: Global, arms: &[Arm]) -> Result<Vec<Arm>, AllocError>
    ensures { IfOk result (λ table. IsTableOf table.items arms.now) }
{
    let nodes = nodes_by_value(alloc, arms)?;
    in_order(alloc, &nodes)
}

// Where the cases lead, by their values. The first of the text is put in last.
fn nodes_by_value(alloc: Global, arms: &[Arm]) -> Result<BTreeMap<i128, u32>, AllocError>
    ensures { IfOk result (λ nodes. FindsArms nodes arms.now) }
{
    let mut nodes = BTreeMap::new(alloc);
    'arms: for at in (0..arms.len()).rev() {
        let arm = arms[at];
        nodes.insert(arm.value, arm.next)?;
    }
    Ok(nodes)
}

// The entries of a map by value.
fn in_order(alloc: Global, nodes: &BTreeMap<i128, u32>) -> Result<Vec<Arm>, AllocError>
    ensures entries { IfOk result (λ table. table.items ≡ map entry_arm nodes.now.entries) }
    ensures ordered { IsOrdered int_cmp nodes.now }
{
    let mut table = Vec::new(alloc);
    'table: for (value, next) in nodes {
        table.push(Arm {
            value: *value,
            next: *next,
        })?;
    }
    Ok(table)
}
