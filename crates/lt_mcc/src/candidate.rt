ghost use Rattle.std.specs.Prelude.{◌≡◌, ◌<◌, length, None, false, is_some, option_map, slice_get, slice_index_or};
ghost use Rattle.lt_tree.specs.View.{expression_of};
ghost use Rattle.lt_tree.specs.Nodes.{Node};
ghost use Rattle.lt_objectives.specs.Copies.{is_core};
ghost use Rattle.lt_sites.specs.Sites.{node_of};
ghost use Rattle.lt_mcc.specs.Candidates.{core_in, candidate};

use lt_sites::NodeRef;
use lt_survey::Survey;
use lt_tree::Expr;

/// The decision of this number, if labels for combinations of its clauses may stand before it, and predicates may copy each of its nodes.
pub fn candidate<'u>(survey: &Survey<'u>, k: usize) -> Option<&'u Expr>
    requires { k < length survey.now.sites.items }
    ensures { (node : Node) → option_map (λ site. node_of site.node) (slice_get survey.now.sites.items k) ≡ Some node → option_map (λ e. expression_of e.now) result ≡ candidate node (slice_index_or survey.now.open.items k false) (is_some (slice_index_or survey.now.decisions.items k None)) (slice_index_or survey.now.copied.items k false) }
{
    if !is_set(&survey.open, k) || !is_decision(survey, k) || !is_set(&survey.copied, k) {
        return None;
    }
    core_in(survey.sites[k].node)
}

fn is_set(flags: &[bool], k: usize) -> bool
    ensures { result ≡ slice_index_or flags.now k false }
{
    match flags.get(k) {
        None => false,
        Some(flag) => *flag,
    }
}

fn is_decision(survey: &Survey<'_>, k: usize) -> bool
    ensures { result ≡ is_some (slice_index_or survey.now.decisions.items k None) }
{
    match survey.decisions.get(k) {
        None => false,
        Some(decided) => decided.is_some(),
    }
}

fn core_in(node: NodeRef<'_>) -> Option<&Expr>
    ensures { option_map (λ e. expression_of e.now) result ≡ core_in (node_of node.entry) }
{
    match node {
        NodeRef::Expression(e) if is_core(e) => Some(e),
        _ => None,
    }
}

// Whether an expression has no marks around it.
fn is_core(e: &Expr) -> bool
    ensures { result ≡ is_core (expression_of e.now) }
{
    !matches!(e, Expr::Marked(..) | Expr::Decide(..) | Expr::After(..))
}
