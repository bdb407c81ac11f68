ghost use Rattle.std.specs.Prelude.{◌≡◌, ◌++◌, [], not, option_map, OnOk, IfOk, true, false};
ghost use Rattle.lt_tree.specs.Typing.EntityView.{rule_of};
ghost use Rattle.lt_tree.specs.Typing.Rules.{broken_if, unless, lesser, least};

use lt_tree::typed::Rule;
use std::alloc::{AllocError, Global};
use std::marker::Model;

/// The rules that are broken at a node. Contracts see them as a list.
#[derive(Drop)]
pub struct Faults {
    rules: Vec<Rule>,
}

impl Model for Faults {
    ghost use Rattle.std.specs.Prelude.{List, map};
    ghost use Rattle.lt_tree.specs.Typing.Rules.{Rule};
    ghost use Rattle.lt_tree.specs.Typing.EntityView.{rule_of};

    ghost Value = { List Rule };

    ghost view = { λ f. map rule_of f.rules.items };
}

// The lesser of a rule and another.
fn lesser(rule: Rule, other: Option<Rule>) -> Rule
    ensures { rule_of result ≡ lesser (rule_of rule) (option_map rule_of other) }
{
    match other {
        None => rule,
        Some(other) => {
            if other.number() < rule.number() {
                other
            } else {
                rule
            }
        }
    }
}

impl Faults {
    /// None.
    pub fn new(alloc: Global) -> Faults
        ensures { result ≡ [] }
    {
        Faults {
            rules: Vec::new(alloc),
        }
    }

    /// One more, if it is broken.
    pub fn broken_if(&mut self, rule: Rule, broken: bool) -> Result<(), AllocError>
        ensures { OnOk result (self.new ≡ self.old ++ broken_if (rule_of rule) broken) }
    {
        if broken {
            match self.rules.push(rule) {
                Ok(()) => Ok(()),
                Err(_) => Err(AllocError),
            }
        } else {
            Ok(())
        }
    }

    /// One more, unless this holds.
    pub fn unless(&mut self, condition: bool, rule: Rule) -> Result<(), AllocError>
        ensures { OnOk result (self.new ≡ self.old ++ unless condition (rule_of rule)) }
    {
        self.broken_if(rule, !condition)
    }

    /// Others behind these.
    pub fn append(&mut self, others: Faults) -> Result<(), AllocError>
        ensures { OnOk result (self.new ≡ self.old ++ others) }
    {
        self.rules.extend_from_slice(&others.rules)
    }

    /// The same again.
    pub fn copied(&self, alloc: Global) -> Result<Faults, AllocError>
        ensures { IfOk result (λ faults. faults ≡ self.now) }
    {
        Ok(Faults {
            rules: Vec::from_slice(alloc, &self.rules)?,
        })
    }

    /// Whether there are none.
    pub fn is_empty(&self) -> bool
        ensures { result ≡ elim (self.now) [ [] ↦ true | _ ↦ false ] }
    {
        self.rules.is_empty()
    }

    /// Of the rules the least.
    pub fn least(&self) -> Option<Rule>
        ensures { option_map rule_of result ≡ least self.now }
    {
        let mut least = None;
        let mut left = self.rules.len();
        'rules: while 0 < left {
            left -= 1;
            least = Some(lesser(self.rules[left], least));
        }
        least
    }
}
