// Trees of C; `specs/Tree.antt` has them as values.
#![tactic(auto)]

mod constants;
mod declaration;
mod declarator;
mod escapes;
mod expression;
pub mod makes;
mod mark;
mod purity;
mod specifier;
mod statement;
mod stop;
mod terminal;
pub mod typed;
mod unit;

pub use constants::id_number;
pub use declaration::{Declaration, InitDeclarator, Initialiser};
pub use declarator::{Declarator, DeclaratorPart, Parameter, Parameters};
pub use escapes::{escape, hex_value};
pub use expression::{Expr, LogicalOp, UnaryOp};
pub use mark::{Binding, Mark};
pub use purity::is_pure;
pub use specifier::{
    BasicType, Enumerator, Member, MemberDeclarator, Specifiers, Storage, TypeName, TypeSpecifier,
    TypeWord,
};
pub use statement::{ForStart, Item, Label, Stmt, SwitchCase};
pub use stop::Stop;
pub use terminal::Terminal;
pub use unit::{External, FunctionDefinition, Unit};
