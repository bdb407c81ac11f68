ghost use Rattle.std.specs.Prelude.{◌≡◌, ◌+◌, ◌∷◌, ◌++◌, List, drop, IfOk, IfErr, IfSome, OnOk, OnErr};
ghost use Rattle.lt_tree.specs.Typing.Types.{CType};
ghost use Rattle.lt_tree.specs.Typing.EntityView.{object_of, entity_of, tagged_of, label_of, fact_of};
ghost use Rattle.lt_tree.specs.Typing.Entities.{innermost};
ghost use Rattle.lt_tree.specs.Typing.Steps as steps;
ghost use Rattle.lt_tree.specs.Typing.Expressions as typing;
ghost use Rattle.lt_table.specs.TableRows.{Stays};
ghost use Rattle.lt_table.specs.TypesValue.{structs_at};
ghost use Rattle.lt_env.specs.NamesValue.{frames_at, frame_at};
ghost use Rattle.lt_env.specs.declared.stop.TypeStop.TheVariants.{NoMemory};
ghost use Rattle.lt_env.specs.Going.{Gives, done, itself, known_of};
ghost use Rattle.lt_env.specs.Views.{use_of, typed_of, typed_in, judged_in};

use crate::faults::Faults;
use crate::stop::TypeStop;
use crate::symbols::{Bodies, Declarations, Labels, NameFrame, NameSet, Names, Objects};
use crate::typed::{Form, Judged, Typed, Use};
use crate::values::used;
use lt_model::DataModel;
use lt_table::Types;
use lt_tree::typed::{Entity, Fact, LabelInfo, Object, Rule, Tagged};
use std::alloc::{AllocError, Global};

/// What is known at a place of the text, as a unit is gone over.
#[derive(Drop)]
pub struct Walker {
    pub types: Types,
    /// The functions to which the unit gives a body.
    pub defined: NameSet,
    /// The number of the next node.
    pub next: u32,
    /// Whether the place is in an expression that is to be constant, or in the operand of `sizeof`.
    pub is_unmarked: bool,
    pub names: Names,
    pub objects: Objects,
    pub declared: Declarations,
    pub functions: Bodies,
    pub labels: Labels,
    pub facts: Vec<Fact>,
}

// The number of the object that an expression is.
fn object_of(typed: &Typed) -> Option<u32>
    ensures { (types : List CType) → result ≡ typing.object_of (typed_of types typed.now) }
{
    match &typed.form {
        Form::Place(place) => place.object(),
        _ => None,
    }
}

// What is kept of an expression.
fn fact(node: u32, typed: &Typed) -> Fact
    ensures { (types : List CType) → fact_of types result ≡ typing.fact_of node (typed_of types typed.now) }
{
    Fact {
        node,
        ty: typed.own_type(),
        is_place: typed.is_lvalue(),
        constancy: typed.erased,
        object: object_of(typed),
    }
}

// The rules that are broken at any expression, behind others.
fn judge_any(types: &Types, role: Use, typed: &Typed, faults: &mut Faults) -> Result<(), AllocError>
    ensures { OnOk result (Stays types.now.rows (λ longer. faults.new ≡ faults.old ++ typing.faults_of_any (structs_at longer types.now) (use_of role) (typed_of longer typed.now))) }
{
    let table = types.table();
    let t = typed.own_type();
    let element = table.element(t).ok_or(AllocError)?;
    let is_floating = table.is_floating(element).ok_or(AllocError)?;
    let is_too_large = types.has_too_many_cells(t).ok_or(AllocError)?;
    let is_of_function = table.is_pointer_to_function(element).ok_or(AllocError)?;
    let is_volatile = reads_volatile(types, role, typed).ok_or(AllocError)?;
    faults.broken_if(Rule::FloatingType, is_floating)?;
    faults.broken_if(Rule::BadLength, is_too_large)?;
    faults.broken_if(Rule::FunctionAsValue, is_of_function)?;
    faults.broken_if(Rule::VolatileAccess, is_volatile)
}

// Whether a place that is used so is read.
fn is_read(role: Use) -> bool
    ensures { result ≡ typing.is_read (use_of role) }
{
    match role {
        Use::Place => false,
        _ => true,
    }
}

// Whether a scalar or a struct is read through an lvalue that is volatile.
fn reads_volatile(types: &Types, role: Use, typed: &Typed) -> Option<bool>
    ensures { IfSome result (λ b. Stays types.now.rows (λ longer. b ≡ typing.reads_volatile (use_of role) (typed_of longer typed.now))) }
{
    let quals = types.table().own_qualifiers(typed.own_type())?;
    let is_read = is_read(role);
    let is_lvalue = typed.is_lvalue();
    Some(is_read && is_lvalue && quals.volatile)
}

impl Walker {
    /// The number of the node that begins here.
    pub fn enter(&mut self) -> Result<u32, TypeStop>
        ensures gives { Gives itself self.old self.new result (λ types. steps.enter) }
        ensures node { IfOk result (λ n. n ≡ self.old.next) }
        ensures entered { OnOk result (self.new ≡ record self.old { next = self.old.next + 1 }) }
    {
        let node = self.next;
        let Some(next) = node.checked_add(1) else {
            return Err(TypeStop::NoMemory);
        };
        self.next = next;
        Ok(node)
    }

    /// A node ends where these rules are broken: the least of them counts.
    pub fn settle(&mut self, node: u32, faults: &Faults) -> Result<(), TypeStop>
        ensures gives { Gives done self.old self.new result (λ types. steps.settle node faults.now) }
        ensures same { self.new ≡ self.old }
    {
        match faults.least() {
            None => Ok(()),
            Some(rule) => Err(TypeStop::Broken(rule, node)),
        }
    }

    /// What is known of an expression.
    pub fn note(&mut self, fact: Fact) -> Result<(), TypeStop>
        ensures gives { Gives done self.old self.new result (λ types. steps.notes (fact_of types fact)) }
    {
        self.facts.push(fact)?;
        Ok(())
    }

    /// An expression's node ends: what its operator breaks and what breaks rules at any expression is judged, and it is taken as it is used.
    pub fn finish(
        &mut self,
        node: u32,
        role: Use,
        judged: Box<Judged>,
    ) -> Result<Box<Typed>, TypeStop>
        ensures gives { Gives typed_in self.old self.new result (λ types. typing.finish node (use_of role) (judged_in types judged)) }
    {
        let Judged { mut faults, typed } = Box::into_inner(judged);
        judge_any(&self.types, role, &typed, &mut faults)?;
        self.settle(node, &faults)?;
        self.note(fact(node, &typed))?;
        Ok(used(&mut self.types, role, typed)?)
    }

    /// One more object, and its number.
    pub fn add_object(&mut self, object: Object) -> Result<u32, TypeStop>
        ensures gives { Gives itself self.old self.new result (λ types. steps.add_object (object_of types object)) }
    {
        Ok(self.objects.add(object)?)
    }

    /// A name stands for this in the innermost frame.
    pub fn bind(&mut self, name: &[u8], entity: Entity) -> Result<(), TypeStop>
        ensures gives { Gives done self.old self.new result (λ types. steps.binds name.now (entity_of types entity)) }
    {
        Ok(self.names.bind(name, entity)?)
    }

    /// A tag stands for this in the innermost frame.
    pub fn bind_tag(&mut self, tag: &[u8], tagged: Tagged) -> Result<(), TypeStop>
        ensures gives { Gives done self.old self.new result (λ types. steps.tags tag.now (tagged_of tagged)) }
    {
        Ok(self.names.bind_tag(tag, tagged)?)
    }

    /// One more label.
    pub fn add_label(&mut self, label: LabelInfo) -> Result<(), TypeStop>
        ensures gives { Gives done self.old self.new result (λ types. steps.adds_label (label_of label)) }
    {
        Ok(self.labels.add(label)?)
    }

    /// Opens a frame with these names.
    pub fn open(&mut self, frame: NameFrame) -> Result<(), TypeStop>
        ensures opened { OnOk result (self.new ≡ record self.old { names = record { names = frame.names ∷ self.old.names.names; tags = frame.tags ∷ self.old.names.tags } }) }
        ensures types { self.new.types ≡ self.old.types }
        ensures stops { IfErr result (λ stop. stop ≡ NoMemory) }
    {
        Ok(self.names.open(frame)?)
    }

    /// Takes off the innermost frame, and gives its names.
    pub fn close(&mut self) -> NameFrame
        ensures closed { self.new ≡ record self.old { names = record { names = drop 1 self.old.names.names; tags = drop 1 self.old.names.tags } } }
        ensures frame { (types : List CType) → frame_at types result ≡ innermost (frames_at types self.old.names) }
    {
        self.names.close()
    }
}
