// The functions do nothing.

ghost use Rattle.lt_predicates.specs.Laws.{DomainsAreOfTypes};

/// The domain of a type has the predicates of the type.
pub fn domains_are_of_types()
    ensures { DomainsAreOfTypes }
{}
