//! Reads scripts, and answers them.
#![tactic(auto)]

mod answers;
mod builder;
mod causes;
mod flags;
mod leaves;
mod lines;
mod names;
mod reader;
mod resolved;
mod scope;
mod sorts;
mod stages;
#[cfg(test)]
mod tests;

pub use answers::{Answered, answer};
pub use causes::{Cause, ScriptError};
pub use ir_syntax::{Expr, Exprs};
pub use reader::{Line, read_line};
