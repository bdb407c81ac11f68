ghost use Rattle.std.specs.Prelude.{◌≡◌, ℕ, Option};
ghost use Rattle.lt_model.specs.declared.cell.Content.{Content};
ghost use Rattle.lt_address.specs.Value.{held_of, without_instance, after_end};

/// A law: a content of a memory is, after the living instance of an abstract block has ended, what values say it is. It does
/// nothing.
pub fn end_law(block: u32)
    ensures { (instance : ℕ → Option ℕ) (c : Content) → held_of (without_instance block instance) c ≡ after_end block (held_of instance c) }
{}
