ghost use Rattle.std.specs.Prelude.{◌≡◌, if◌then◌else◌, length, map, IfOk};
ghost use Rattle.std.specs.List.{list_any};
ghost use Rattle.lt_tree.specs.Tree as c;
ghost use Rattle.lt_tree.specs.Typing.Programs.{Program};
ghost use Rattle.lt_objectives.specs.Places as places;
ghost use Rattle.lt_objectives.specs.Places.{is_open, is_constant, makes_static, makes_static_in_for};
ghost use Rattle.lt_sites.specs.Sites.{AreSitesOf, node_of};
ghost use Rattle.lt_places.specs.Closed.{is_closed, static_behind};

use lt_sites::{NodeRef, Site};
use lt_tree::{Expr, External, ForStart, Stmt, Storage};
use std::alloc::{AllocError, Global};

/// Whether a label may stand at each node. `constants` says of each node whether it is an integer constant expression.
pub fn open_places(
    alloc: Global,
    sites: &[Site<'_>],
    constants: &[bool],
) -> Result<Vec<bool>, AllocError>
    requires { length constants.now ≡ length sites.now }
    ensures { (unit : c.Unit) (program : Program) → AreSitesOf sites.now unit → constants.now ≡ map (λ site. is_constant unit program site.number) (places.sites unit) → IfOk result (λ answers. answers.items ≡ map (λ site. is_open unit program site.number) (places.sites unit)) }
{
    let mut open = Vec::new(alloc);
    // how many nodes, from this one on, are closed by what stands before
    let mut closed: usize = 0;
    'sites: for (site, is_constant) in sites.iter().zip(constants) {
        let itself = if is_closed(site, *is_constant) {
            site.size
        } else {
            0
        };
        let here = closed.max(itself);
        open.push(here == 0)?;
        closed = here.saturating_sub(1).max(static_behind(site));
    }
    Ok(open)
}

/// Whether no label stands in the whole part of the node.
fn is_closed(site: &Site<'_>, is_constant: bool) -> bool
    ensures { result ≡ is_closed (node_of site.now.node) is_constant }
{
    match site.node {
        NodeRef::External(External::Declaration(_)) | NodeRef::Mark(_) => true,
        NodeRef::Expression(Expr::SizeofExpr(_) | Expr::SizeofType(_)) => true,
        NodeRef::Expression(_) => is_constant,
        _ => false,
    }
}

/// How many nodes behind the node are those of a declaration of static objects.
fn static_behind(site: &Site<'_>) -> usize
    ensures { result ≡ static_behind (node_of site.now.node) site.now.size site.now.head }
{
    match site.node {
        NodeRef::DeclaredItem(declaration) => {
            let is_static = makes_static(declaration.specifiers.storage.as_slice());
            if is_static {
                site.size.saturating_sub(1)
            } else {
                0
            }
        }
        NodeRef::Statement(Stmt::For(ForStart::Declaration(declaration), _, _, _)) => {
            let is_static = makes_static_in_for(declaration.specifiers.storage.as_slice());
            if is_static { site.head } else { 0 }
        }
        _ => 0,
    }
}

fn makes_static(storage: &[Storage]) -> bool
    ensures { result ≡ list_any makes_static storage.now }
{
    storage
        .iter()
        .any(|word| matches!(word, Storage::Static | Storage::Extern))
}

fn makes_static_in_for(storage: &[Storage]) -> bool
    ensures { result ≡ list_any makes_static_in_for storage.now }
{
    storage.iter().any(|word| matches!(word, Storage::Static))
}
