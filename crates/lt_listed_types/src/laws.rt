//! Laws of the definitions; the functions do nothing.

ghost use Rattle.lt_listed_types.specs.Laws.{TypesOfAccessesAreListed};

/// Each type by which the code of a typed unit gets at memory is named in its program's list of types.
pub fn types_of_accesses_are_listed()
    ensures { TypesOfAccessesAreListed }
{}
