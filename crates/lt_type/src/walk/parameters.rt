// Parameters, C11 6.7.6.3.

ghost use Rattle.std.specs.Prelude.{◌≡◌, map};
ghost use Rattle.lt_tree.specs.View.{parameters_of};
ghost use Rattle.lt_tree.specs.Records.{specifiers_of, declarator_of, parameter_list_in};
ghost use Rattle.lt_tree.specs.Typing.Types.{adjusted};
ghost use Rattle.lt_tree.specs.Typing.TypeRows.{type_in};
ghost use Rattle.lt_tree.specs.Typing.Steps.{in_block, gives};
ghost use Rattle.lt_tree.specs.Typing.ExpressionTyping as typing;
ghost use Rattle.lt_env.specs.Going.{Gives, answering};
ghost use Rattle.lt_type.specs.Found as found;
ghost use Rattle.lt_type.specs.Found.{found_of, with_all_found};
ghost use Rattle.lt_type.specs.Ends.{found_end, without_any};
ghost use Rattle.lt_declare.specs.DeclaredViews.{parameters_in, declares_of};

use crate::walk::declarators::declarator;
use crate::walk::naming::specifiers;
use lt_declare::declarators::{binds_parameter, parameter_behind, with_dots, without_parameters};
use lt_declare::specifiers::is_register;
use lt_declare::{Declares, Judging, Parameters, Setting};
use lt_env::{NameFrame, TypeStop, Walker};
use lt_tree::typed::TypeId;
use lt_tree::{Parameter, Parameters as Listing};

/// What a parameter declares, and its objects.
#[derive(Drop)]
pub struct FoundParameter {
    pub declared: Declares,
    pub objects: Vec<u32>,
}

// Parameters, in a scope of their own.
#[cycle(typing)]
pub fn block_of_parameters(
    walker: &mut Walker,
    list: &Listing,
    is_definition: bool,
) -> Result<Box<Parameters>, TypeStop>
    ensures { Gives parameters_in walker.old walker.new result (λ types. in_block (typing.parameters (parameters_of list.now) is_definition)) }
{
    let alloc = walker.types.alloc();
    walker.open(NameFrame::new(alloc))?;
    let them = parameters(walker, list, is_definition)?;
    let _frame = walker.close();
    Ok(them)
}

#[cycle(typing)]
fn parameters(
    walker: &mut Walker,
    list: &Listing,
    is_definition: bool,
) -> Result<Box<Parameters>, TypeStop>
    ensures { Gives parameters_in walker.old walker.new result (λ types. typing.parameters (parameters_of list.now) is_definition) }
{
    match list {
        Listing::Unstated | Listing::Void => without_parameters(walker),
        Listing::Listed(list) => parameter_list(walker, list.as_slice(), is_definition),
        Listing::Open(list) => {
            let them = parameter_list(walker, list.as_slice(), is_definition)?;
            with_dots(walker, them)
        }
    }
}

#[cycle(typing)]
fn parameter_list(
    walker: &mut Walker,
    list: &[Parameter],
    is_definition: bool,
) -> Result<Box<Parameters>, TypeStop>
    ensures { Gives parameters_in walker.old walker.new result (λ types. typing.parameter_list (parameter_list_in list.now) is_definition) }
{
    let all = found_parameters(walker, list, is_definition)?;
    with_found(walker, all)
}

#[cycle(typing)]
fn found_parameters(
    walker: &mut Walker,
    list: &[Parameter],
    is_definition: bool,
) -> Result<Vec<FoundParameter>, TypeStop>
    ensures { Gives (λ types all. map (found_of types) all.items) walker.old walker.new result (λ types. found.parameters list.now is_definition) }
{
    let mut all = Vec::new(walker.types.alloc());
    'list: for p in list {
        all.push(parameter(walker, p, is_definition)?)?;
    }
    Ok(all)
}

#[cycle(typing)]
fn parameter(
    walker: &mut Walker,
    p: &Parameter,
    is_definition: bool,
) -> Result<FoundParameter, TypeStop>
    ensures { Gives found_of walker.old walker.new result (λ types. found.parameter (specifiers_of p.now.specifiers) (declarator_of p.now.declarator) is_definition) }
{
    let it = specifiers(walker, &p.specifiers, Setting::Elsewhere)?;
    let judging = Judging::Parameter { is_definition };
    let declared = declarator(walker, &p.declarator, &it, false, judging)?;
    end_parameter(walker, declared, is_definition, is_register(&it))
}

// The type of a parameter that is declared with this type.
fn adjusted_in(walker: &mut Walker, t: TypeId) -> Result<TypeId, TypeStop>
    ensures { Gives (λ types id. type_in types id) walker.old walker.new result (λ types. gives (adjusted (type_in types t))) }
{
    Ok(walker.types.adjusted(t)?)
}

// A parameter ends: it has an object, and a name if it is written.
fn end_parameter(
    walker: &mut Walker,
    declared: Declares,
    is_definition: bool,
    is_register: bool,
) -> Result<FoundParameter, TypeStop>
    ensures { Gives found_of walker.old walker.new result (λ types. found_end (declares_of types declared) is_definition is_register) }
{
    let t = adjusted_in(walker, declared.ty)?;
    let node = declared.node;
    let objects = binds_parameter(walker, is_definition, is_register, node, &declared.name, t)?;
    Ok(FoundParameter { declared, objects })
}

// A list of parameters, of which each was gone over.
fn with_found(walker: &mut Walker, all: Vec<FoundParameter>) -> Result<Box<Parameters>, TypeStop>
    ensures { Gives parameters_in walker.old walker.new result (λ types. answering (λ known. with_all_found (map (found_of types) all.items) (without_any known))) }
{
    let mut made = without_parameters(walker)?;
    'all: for p in all {
        made = parameter_behind(walker, made, p.declared, p.objects)?;
    }
    Ok(made)
}
