//! A program without what runs don't need.

ghost use Rattle.std.specs.Prelude.{◌≡◌, []};
ghost use Rattle.lt_tree.specs.UnitView.{unit_of};
ghost use Rattle.lt_tree.specs.Typing.ProgramView.{program_of};

use lt_tree::Unit;
use lt_tree::typed::Program;
use std::alloc::Global;

/// The program with another unit in place of its own, which can be given up then, and without what is known of its expressions. What a
/// suite covers stays the same (`coverage_needs_no_unit`).
pub fn stripped<'n>(alloc: Global, program: Program<'_>, other: &'n Unit) -> Program<'n>
    ensures { program_of result ≡ record (program_of program.entry) { unit = unit_of other.now; facts = [] } }
{
    Program {
        unit: other,
        model: program.model,
        structs: program.structs,
        objects: program.objects,
        declared: program.declared,
        functions: program.functions,
        file: program.file,
        types: program.types,
        labels: program.labels,
        facts: Vec::new(alloc),
        table: program.table,
    }
}
