//! Which nodes predicates may copy.

ghost use Rattle.std.specs.Prelude.{◌≡◌, ◌&&◌};
ghost use Rattle.lt_tree.specs.View.{expression_of, type_of, parameters_of};
ghost use Rattle.lt_tree.specs.Records.{specifiers_of, declarator_of, types_in, parts_in, parameter_list_in};
ghost use Rattle.lt_tree.specs.Nodes.{an_expression};
ghost use Rattle.lt_objectives.specs.Tags.{fits, is_of_text, names_known, are_known, is_known_type, is_known_declarator, are_known_parts, are_known_parameters, is_known_list};
ghost use Rattle.lt_sites.specs.Sites.{node_of};
ghost use Rattle.lt_copies.specs.Blocks.{tags_of};
ghost use Rattle.lt_copies.specs.Judged.{is_known_part};

use crate::blocks::Blocks;
use lt_sites::NodeRef;
use lt_tree::{
    Declarator, DeclaratorPart, Expr, Parameter, Parameters, Specifiers, TypeName, TypeSpecifier,
};

// Whether a text can have this expression.
fn is_of_text(e: &Expr) -> bool
    ensures { result ≡ is_of_text (an_expression (expression_of e.now)) }
{
    match e {
        Expr::Comma(parts) => 1 < parts.len(),
        Expr::Marked(marks, _) => !marks.is_empty(),
        _ => true,
    }
}

impl Blocks {
    /// Whether predicates may copy a node, where these blocks are around it.
    pub fn fits(&self, node: NodeRef<'_>) -> bool
        ensures { result ≡ fits (tags_of self.now.frames) (node_of node.entry) }
    {
        match node {
            NodeRef::Expression(e) => is_of_text(e) && self.names_known(e),
            _ => true,
        }
    }

    // Whether the type name of a cast or `sizeof` declares nothing.
    fn names_known(&self, e: &Expr) -> bool
        ensures { result ≡ names_known (tags_of self.now.frames) (an_expression (expression_of e.now)) }
    {
        match e {
            Expr::Cast(name, _) => self.is_known(name),
            Expr::SizeofType(name) => self.is_known(name),
            _ => true,
        }
    }

    fn is_known(&self, name: &TypeName) -> bool
        ensures { result ≡ are_known (tags_of self.now.frames) (specifiers_of name.now.specifiers) && is_known_declarator (tags_of self.now.frames) (declarator_of name.now.declarator) }
    {
        self.are_known(&name.specifiers) && self.is_known_declarator(&name.declarator)
    }

    fn are_known(&self, specifiers: &Specifiers) -> bool
        ensures { result ≡ are_known (tags_of self.now.frames) (specifiers_of specifiers.now) }
    {
        'types: for kind in &specifiers.types {
            if !self.is_known_type(kind) {
                return false;
            }
        }
        true
    }

    fn is_known_type(&self, kind: &TypeSpecifier) -> bool
        ensures { result ≡ is_known_type (tags_of self.now.frames) (type_of kind.now) }
    {
        match kind {
            TypeSpecifier::StructTag(tag) => self.knows(tag.as_slice()),
            TypeSpecifier::Struct(..) | TypeSpecifier::Enum(..) => false,
            _ => true,
        }
    }

    #[cycle(known)]
    fn is_known_declarator(&self, declarator: &Declarator) -> bool
        ensures { result ≡ is_known_declarator (tags_of self.now.frames) (declarator_of declarator.now) }
    {
        self.are_known_parts(declarator.parts.as_slice())
    }

    #[cycle(known)]
    fn are_known_parts(&self, list: &[DeclaratorPart]) -> bool
        ensures { result ≡ are_known_parts (tags_of self.now.frames) (parts_in list.now) }
    {
        'parts: for part in list {
            if !self.is_known_part(part) {
                return false;
            }
        }
        true
    }

    #[cycle(known)]
    fn is_known_part(&self, part: &DeclaratorPart) -> bool
        ensures { result ≡ is_known_part (tags_of self.now.frames) part.now }
    {
        match part {
            DeclaratorPart::Function(parameters) => self.are_known_parameters(parameters),
            _ => true,
        }
    }

    #[cycle(known)]
    fn are_known_parameters(&self, parameters: &Parameters) -> bool
        ensures { result ≡ are_known_parameters (tags_of self.now.frames) (parameters_of parameters.now) }
    {
        match parameters {
            Parameters::Unstated | Parameters::Void => true,
            Parameters::Listed(list) | Parameters::Open(list) => self.is_known_list(
                list.as_slice(),
            ),
        }
    }

    #[cycle(known)]
    fn is_known_list(&self, list: &[Parameter]) -> bool
        ensures { result ≡ is_known_list (tags_of self.now.frames) (parameter_list_in list.now) }
    {
        'parameters: for parameter in list {
            let is_known = self.are_known(&parameter.specifiers)
                && self.is_known_declarator(&parameter.declarator);
            if !is_known {
                return false;
            }
        }
        true
    }
}
