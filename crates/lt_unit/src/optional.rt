// Expressions that may be left out.

ghost use Rattle.std.specs.Prelude.{◌≡◌, option_map};
ghost use Rattle.lt_tree.specs.View.{expression_of};
ghost use Rattle.lt_unit.specs.UnitViews.{optional_walk};
ghost use Rattle.lt_env.specs.Going.{Gives};
ghost use Rattle.lt_env.specs.Views.{typed_in, use_of};

use lt_tree::Expr;
use lt_type::{TypeStop, Typed, Use, Walker, expression};

/// Goes over an expression, if there is one.
pub fn optional(
    walker: &mut Walker,
    e: &Option<Expr>,
    role: Use,
) -> Result<Option<Box<Typed>>, TypeStop>
    ensures { Gives (λ types x. option_map (typed_in types) x) walker.old walker.new result (λ types. optional_walk (option_map expression_of e.now) (use_of role)) }
{
    match e {
        None => Ok(None),
        Some(e) => {
            let x = expression(walker, e, role)?;
            Ok(Some(x))
        }
    }
}
