//! Laws of the definitions; the functions do nothing.

ghost use Rattle.lt_object_laws.specs.Laws.{FurtherObjectsChangeNothing, FurtherObjectsTakeRoomAlone};

/// A program with further objects has the same end, ticks, marks and memory in each run, further blocks aside, where the
/// run has room for their cells.
pub fn further_objects_change_nothing()
    ensures { FurtherObjectsChangeNothing }
{}

/// In any run of it there is no room for their cells, or it is the same.
pub fn further_objects_take_room_alone()
    ensures { FurtherObjectsTakeRoomAlone }
{}
