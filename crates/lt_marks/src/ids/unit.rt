// The greatest id of the marks of a unit.

ghost use Rattle.std.specs.Prelude.{◌≡◌, ◌++◌, max, map, option_map};
ghost use Rattle.std.specs.List.{flat_map};
ghost use Rattle.lt_tree.specs.Tree as t;
ghost use Rattle.lt_tree.specs.View.{expression_of};
ghost use Rattle.lt_tree.specs.Records.{specifiers_of, declarator_of};
ghost use Rattle.lt_tree.specs.UnitView.{
  initialiser_of,
  initialisers_in,
  init_declarator_of,
  declaration_of,
  start_of,
  label_of,
  statement_of,
  item_before,
  items_in,
  cases_in,
  external_of,
  unit_of,
};
ghost use Rattle.lt_tree.specs.Ids.{
  ids_in,
  ids_in_specifiers,
  ids_in_declarator,
  ids_in_initialiser,
  ids_in_initialisers,
  ids_in_some,
  ids_in_init_declarator,
  ids_in_declaration,
  ids_in_start,
  ids_in_label,
  ids_in_statement,
  ids_in_items,
  ids_in_cases,
  ids_in_external,
  ids_of_unit,
  greatest_id,
};

use crate::ids::expression::{in_declarator, in_expression, in_mark, in_specifiers};
use lt_tree::{
    Declaration, Expr, External, ForStart, FunctionDefinition, InitDeclarator, Initialiser, Item,
    Label, Stmt, SwitchCase, Unit,
};

/// The greatest id of the marks of a unit that is from 1 to 2,147,483,647, or 0 if there is none.
#[tactic(auto, using(crate::proofs::Greatest::greatest_both))]
pub fn max_id(u: &Unit) -> u32
    ensures { result ≡ greatest_id (ids_of_unit (unit_of u.now)) }
{
    in_externals(u.externals.as_slice())
}

fn in_externals(list: &[External]) -> u32
    ensures { result ≡ greatest_id (ids_of_unit (map external_of list.now)) }
{
    let mut best: u32 = 0;
    'list: for external in list {
        best = best.max(in_external(external));
    }
    best
}

#[tactic(auto, using(crate::proofs::Greatest::greatest_both))]
fn in_external(external: &External) -> u32
    ensures { result ≡ greatest_id (ids_in_external (external_of external.now)) }
{
    match external {
        External::Function(function) => in_function(function),
        External::Declaration(declaration) => in_declaration(declaration),
    }
}

#[tactic(auto, using(crate::proofs::Greatest::greatest_both))]
fn in_function(f: &FunctionDefinition) -> u32
    ensures { result ≡ greatest_id (ids_in_specifiers (specifiers_of f.now.specifiers) ++ ids_in_declarator (declarator_of f.now.declarator) ++ ids_in_items (items_in f.now.body.items)) }
{
    in_specifiers(&f.specifiers)
        .max(in_declarator(&f.declarator))
        .max(in_items(f.body.as_slice()))
}

#[tactic(auto, using(crate::proofs::Greatest::greatest_both))]
fn in_declaration(declaration: &Declaration) -> u32
    ensures { result ≡ greatest_id (ids_in_declaration (declaration_of declaration.now)) }
{
    in_specifiers(&declaration.specifiers).max(in_init_declarators(
        declaration.declarators.as_slice(),
    ))
}

#[tactic(auto, using(crate::proofs::Greatest::greatest_both))]
fn in_init_declarators(list: &[InitDeclarator]) -> u32
    ensures { result ≡ greatest_id (flat_map ids_in_init_declarator (map init_declarator_of list.now)) }
{
    let mut best: u32 = 0;
    'list: for d in list {
        best = best.max(in_init_declarator(d));
    }
    best
}

#[tactic(auto, using(crate::proofs::Greatest::greatest_both))]
fn in_init_declarator(d: &InitDeclarator) -> u32
    ensures { result ≡ greatest_id (ids_in_init_declarator (init_declarator_of d.now)) }
{
    let value = match &d.initialiser {
        None => 0,
        Some(initialiser) => in_initialiser(initialiser),
    };
    in_declarator(&d.declarator).max(value)
}

#[cycle(initialiser_ids)]
fn in_initialiser(initialiser: &Initialiser) -> u32
    ensures { result ≡ greatest_id (ids_in_initialiser (initialiser_of initialiser.now)) }
{
    match initialiser {
        Initialiser::Expression(e) => in_expression(e),
        Initialiser::List(parts) => in_initialisers(parts.as_slice()),
    }
}

#[cycle(initialiser_ids)]
fn in_initialisers(list: &[Initialiser]) -> u32
    ensures { result ≡ greatest_id (ids_in_initialisers (initialisers_in list.now)) }
{
    let mut best: u32 = 0;
    'list: for part in list {
        best = best.max(in_initialiser(part));
    }
    best
}

fn in_some(e: &Option<Expr>) -> u32
    ensures { result ≡ greatest_id (ids_in_some ids_in (option_map expression_of e.now)) }
{
    match e {
        None => 0,
        Some(e) => in_expression(e),
    }
}

fn in_start(start: &ForStart) -> u32
    ensures { result ≡ greatest_id (ids_in_start (start_of start.now)) }
{
    match start {
        ForStart::Nothing => 0,
        ForStart::Expression(e) => in_expression(e),
        ForStart::Declaration(declaration) => in_declaration(declaration),
    }
}

fn in_label(label: &Label) -> u32
    ensures { result ≡ greatest_id (ids_in_label (label_of label.now)) }
{
    match label {
        Label::Case(value) => in_expression(value),
        Label::Default => 0,
    }
}

fn in_labels(list: &[Label]) -> u32
    ensures { result ≡ greatest_id (flat_map ids_in_label (map label_of list.now)) }
{
    let mut best: u32 = 0;
    'list: for label in list {
        best = best.max(in_label(label));
    }
    best
}

#[cycle(statement_ids)]
#[tactic(auto, using(crate::proofs::Greatest::greatest_both))]
fn in_statement(statement: &Stmt) -> u32
    ensures { result ≡ greatest_id (ids_in_statement (statement_of statement.now)) }
{
    match statement {
        Stmt::Compound(items) => in_items(items.as_slice()),
        Stmt::Expression(e) => in_expression(e),
        Stmt::Null => 0,
        Stmt::If(test, body, other) => {
            let both = in_expression(test).max(in_statement(body));
            match other {
                None => both,
                Some(other) => both.max(in_statement(other)),
            }
        }
        Stmt::While(test, body) => in_expression(test).max(in_statement(body)),
        Stmt::Do(body, test) => in_statement(body).max(in_expression(test)),
        Stmt::For(start, test, step, body) => {
            in_start(start)
                .max(in_some(test))
                .max(in_some(step))
                .max(in_statement(body))
        }
        Stmt::Switch(operand, cases) => in_expression(operand).max(in_cases(cases.as_slice())),
        Stmt::Break => 0,
        Stmt::Continue => 0,
        Stmt::Return(value) => in_some(value),
    }
}

#[cycle(statement_ids)]
fn in_items(list: &[Item]) -> u32
    ensures { result ≡ greatest_id (ids_in_items (items_in list.now)) }
{
    let mut best: u32 = 0;
    'list: for item in list {
        best = best.max(in_item(item));
    }
    best
}

#[cycle(statement_ids)]
#[tactic(auto, using(crate::proofs::Greatest::greatest_both))]
fn in_item(item: &Item) -> u32
    ensures { (rest : t.Items) → greatest_id (ids_in_items (item_before item.now rest)) ≡ max result (greatest_id (ids_in_items rest)) }
{
    match item {
        Item::Declaration(declaration) => in_declaration(declaration),
        Item::Statement(statement) => in_statement(statement),
        Item::Mark(mark) => in_mark(mark),
    }
}

#[cycle(statement_ids)]
fn in_cases(list: &[SwitchCase]) -> u32
    ensures { result ≡ greatest_id (ids_in_cases (cases_in list.now)) }
{
    let mut best: u32 = 0;
    'list: for case in list {
        best = best.max(in_case(case));
    }
    best
}

#[cycle(statement_ids)]
#[tactic(auto, using(crate::proofs::Greatest::greatest_both))]
fn in_case(case: &SwitchCase) -> u32
    ensures { result ≡ greatest_id (flat_map ids_in_label (map label_of case.now.labels.items) ++ ids_in_statement (statement_of case.now.statement)) }
{
    in_labels(case.labels.as_slice()).max(in_statement(&case.statement))
}
