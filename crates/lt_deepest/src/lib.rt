//! Tests of the deepest texts that the lexer takes: each is read, printed, erased and typed on the stack that a program has. Texts that aren't as deep are rows
//! of `lt_rows`.
#![tactic(auto)]

#[cfg(test)]
mod nest;
#[cfg(test)]
mod printing;
#[cfg(test)]
mod typing;
#[cfg(test)]
mod units;
