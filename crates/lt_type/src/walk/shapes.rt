// Types that are made of the parts of a declarator, from the last to the first, C11 6.7.6.

ghost use Rattle.std.specs.Prelude.{◌≡◌, [], map};
ghost use Rattle.lt_tree.specs.Typing.TypeRows.{type_in};
ghost use Rattle.lt_tree.specs.Typing.Declarators as d;
ghost use Rattle.lt_env.specs.Going.{Gives, answering};
ghost use Rattle.lt_type.specs.Found.{part_of, with_part, with_parts};
ghost use Rattle.lt_declare.specs.DeclaredViews.{built_of};

use lt_declare::declarators::{array_of, built, function_of, pointer_to};
use lt_declare::{Built, Parameters};
use lt_env::{TypeStop, Walker};
use lt_model::Quals;
use lt_tree::typed::TypeId;

/// A part of a declarator that was gone over.
#[derive(Drop)]
pub enum Shape {
    Pointer(Quals),
    /// With its length, if it is one; 0 where it is given elsewhere.
    Array(Option<u32>),
    Function(Box<Parameters>),
}

// The type with one more part around it.
fn with_shape(walker: &mut Walker, shape: Shape, inner: Built) -> Result<Built, TypeStop>
    ensures { Gives built_of walker.old walker.new result (λ types. answering (λ known. with_part known (part_of types shape) (built_of types inner))) }
{
    match shape {
        Shape::Pointer(quals) => pointer_to(walker, quals, inner),
        Shape::Array(n) => array_of(walker, n, inner),
        Shape::Function(parameters) => function_of(walker, parameters, inner),
    }
}

/// The type with all parts around it, the first outermost.
pub fn with_shapes(walker: &mut Walker, t: TypeId, shapes: Vec<Shape>) -> Result<Built, TypeStop>
    ensures { Gives built_of walker.old walker.new result (λ types. answering (λ known. with_parts known (map (part_of types) shapes.items) (d.built (type_in types t) []))) }
{
    let mut made = built(walker, t)?;
    let mut rest = shapes;
    'shapes: while let Some(shape) = rest.pop() {
        made = with_shape(walker, shape, made)?;
    }
    Ok(made)
}
