//! From the bytes of a line to what it asks for, and its terms as flat steps in the order of building. Names aren't looked up here.
#![tactic(auto)]

mod commands;
mod errors;
mod expression;
mod fields;
mod frames;
mod grammar;
mod labels;
mod scan;
mod steps;
mod tokens;
mod variables;
mod words;

pub use commands::Asked;
pub use errors::ReadError;
pub use expression::{Expr, Exprs, expressions};
pub use fields::{Field, VariableKind, field_count, kid_count};
pub use scan::Reader;
pub use steps::Step;
