//! Laws of the definitions; the functions do nothing.

ghost use Rattle.lt_ir.specs.Laws.{RunsAreOverInOneWay};
ghost use Rattle.lt_ir.specs.Membership.{FootprintsCountByMembership};
ghost use Rattle.lt_ir.specs.Prepared.{RegistersBeginBlank, StubsHavePlaces, SwitchesAreTables};

/// A run of a graph is over in one way.
pub fn runs_are_over_in_one_way()
    ensures { RunsAreOverInOneWay }
{}

/// Footprints that have the same cells clash with the same, and what is made of them has the same cells.
pub fn footprints_count_by_membership()
    ensures { FootprintsCountByMembership }
{}

/// The arms of a switch have a table that is ascending by value, in which each number finds what it finds among the arms; and there it
/// is looked for in one half only.
pub fn switches_are_tables()
    ensures { SwitchesAreTables }
{}

/// The next value for a function without a body stands at the place of its name, which stays the same whatever values are taken.
pub fn stubs_have_places()
    ensures { StubsHavePlaces }
{}

/// The registers that a call begins with are as registers that aren't there.
pub fn registers_begin_blank()
    ensures { RegistersBeginBlank }
{}
