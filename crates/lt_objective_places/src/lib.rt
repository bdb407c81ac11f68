// Where the pieces of a unit stand, and which objectives stand there: `specs/Stands.antt` says what is known of a place, `specs/Pieces.antt` goes from parent
// to child, `specs/Laws.antt` has the laws.
#![tactic(auto)]

mod laws;

pub use laws::{
    constants_are_closed, marks_are_of_one_node, none_stands_where_no_label_does,
    nothing_is_marked_there, objectives_stand_where_they_may, pieces_stand, some_are_closed,
};
