// Pure expressions are typed without their marks: `specs/Erasable.antt` says where marks can be taken off, `specs/Laws.antt` what typing makes of what is left.
#![tactic(auto)]

mod laws;

pub use laws::{
    literals_are_typed_without_marks, marks_hide_operands, marks_show_registers,
    plain_expressions_can_be_erased, truths_are_typed_as_values,
};
