// Laws of the definitions.
ghost use Rattle.std.specs.Prelude.{◌≡◌, ℕ, List};
ghost use Rattle.lt_cover.specs.Coverage.Table.{Table, IsTable};
ghost use Rattle.lt_cover.specs.Coverage.Text.{IsCoverText, cover_text};

/// A text stands for at most one table.
pub fn a_text_stands_for_one_table()
    ensures { (text : List ℕ) (a b : Table) → IsCoverText text a → IsCoverText text b → a ≡ b }
{}

/// What is written of the table of a coverage file stands for it.
pub fn what_is_written_is_read()
    ensures { (t : Table) → IsTable t → IsCoverText (cover_text t) t }
{}
