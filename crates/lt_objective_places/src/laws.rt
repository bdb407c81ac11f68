//! Laws of the definitions; the functions do nothing.

ghost use Rattle.lt_objective_places.specs.Laws.{ConstantsAreClosed, MarksAreOfOneNode, NoneStandsWhereNoLabelDoes, NothingIsMarkedThere, ObjectivesStandWhereTheyMay, PiecesStand, SomeAreClosed};

/// All pieces of a unit stand in it, from the whole unit on.
pub fn pieces_stand()
    ensures { PiecesStand }
{}

/// An objective at the number of an expression stands there as the expression's role allows, and one at that of a
/// function at the start of its body.
pub fn objectives_stand_where_they_may()
    ensures { ObjectivesStandWhereTheyMay }
{}

/// No label stands in constants and in declarations of objects that are there from the start.
pub fn some_are_closed()
    ensures { SomeAreClosed }
{}

/// No label stands in what the program knows as an integer constant.
pub fn constants_are_closed()
    ensures { ConstantsAreClosed }
{}

/// No objective stands where no label does.
pub fn none_stands_where_no_label_does()
    ensures { NoneStandsWhereNoLabelDoes }
{}

/// So nothing is marked there.
pub fn nothing_is_marked_there()
    ensures { NothingIsMarkedThere }
{}

/// The new marks at an expression, and those at the start of a function, are of the objectives of one node.
pub fn marks_are_of_one_node()
    ensures { MarksAreOfOneNode }
{}
