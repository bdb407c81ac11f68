//! Laws of tags in scope; the functions call those on which they rest.

ghost use Rattle.lt_simple_copies.specs.Laws.{CopiesAreSimple, ExpressionsKeepTags, ItemsKeepTags};

use lt_tree_laws::nodes_are_numbered;

/// Going over an expression, or what stands in one, keeps the tags that are in scope.
pub fn expressions_keep_tags()
    ensures { ExpressionsKeepTags }
{}

/// So does going over initialisers, declarations, statements and externals.
pub fn items_keep_tags()
    ensures { ItemsKeepTags }
{
    expressions_keep_tags();
}

/// What predicates may copy is simple where typing comes to it.
pub fn copies_are_simple()
    ensures { CopiesAreSimple }
{
    expressions_keep_tags();
    items_keep_tags();
    nodes_are_numbered();
}
