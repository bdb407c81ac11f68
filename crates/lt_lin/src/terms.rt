ghost use Rattle.std.specs.Prelude.{◌≡◌, IsSome, ◌↔◌, IfSome, IsTrue};
ghost use Rattle.lt_lin.specs.Terms.{IsOrdered};

use std::marker::Model;
use std::vec::Vec;

/// Variables and their factors: the variables ascend, each stands once, and no factor is 0.
#[derive(Debug, Drop)]
pub struct Terms {
    terms: Vec<(u32, i128)>,
}

impl Model for Terms {
    ghost use Rattle.std.specs.Prelude.{List, ℕ, ℤ};
    ghost use Rattle.lt_lin.specs.Terms.{IsOrdered};

    ghost Value = { List (ℕ × ℤ) };

    ghost view = { λ t. t.terms.items };

    ghost invariant = { λ t. IsOrdered t.terms.items };
}

impl Terms {
    /// The terms of a list, or None exactly where the list isn't in order.
    pub fn from_vec(terms: Vec<(u32, i128)>) -> Option<Terms>
        ensures ordered { IsSome result ↔ IsOrdered terms.items }
        ensures same { IfSome result (λ t. t ≡ terms.items) }
    {
        if is_ordered(terms.as_slice()) {
            Some(Terms { terms })
        } else {
            None
        }
    }

    /// The terms of a list in order.
    pub fn from_ordered(terms: Vec<(u32, i128)>) -> Terms
        requires { IsOrdered terms.items }
        ensures { result ≡ terms.items }
    {
        Terms { terms }
    }

    /// The list of the terms.
    pub fn into_vec(self) -> Vec<(u32, i128)>
        ensures same { result.items ≡ self }
        ensures ordered { IsOrdered result.items }
    {
        self.terms
    }

    /// The terms, in ascending order of their variables.
    pub fn as_slice(&self) -> &[(u32, i128)]
        ensures same { result.now ≡ self.now }
        ensures ordered { IsOrdered self.now }
    {
        self.terms.as_slice()
    }
}

fn is_ordered(terms: &[(u32, i128)]) -> bool
    ensures { IsTrue result ↔ IsOrdered terms.now }
{
    let mut least: u64 = 0;
    for (x, c) in terms {
        if u64::from(*x) < least || *c == 0 {
            return false;
        }
        least = u64::from(*x) + 1;
    }
    true
}
