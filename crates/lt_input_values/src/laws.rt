//! Laws of the definitions; the functions do nothing.

ghost use Rattle.lt_input_values.specs.Laws.{OrderIsNoMatter};

/// Whether a test meets a specification is no matter of the order in which its input sets things.
pub fn order_is_no_matter()
    ensures { OrderIsNoMatter }
{}
