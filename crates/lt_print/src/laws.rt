//! Laws of the canonical text; the functions do nothing.

ghost use Rattle.lt_print.specs.Laws.{CanonicalTextIsOfUnitAlone};

/// The tokens of a well-made unit's canonical text derive the unit, and no other.
pub fn canonical_text_is_of_unit_alone()
    ensures { CanonicalTextIsOfUnitAlone }
{}
