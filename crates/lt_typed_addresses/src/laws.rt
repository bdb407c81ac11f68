//! Laws of the definitions; the functions do nothing.

ghost use Rattle.lt_typed_addresses.specs.Laws.{AddressesOfUnitsAreThere};

/// Objects of a typed unit that are there from the start hold addresses of such objects alone.
pub fn addresses_of_units_are_there()
    ensures { AddressesOfUnitsAreThere }
{}
