//! What a term is one layer deep: nodes and lists over handles, by the table of labels, and kinds as views of nodes. Nothing here is kept in a table.
#![tactic(auto)]

mod layers;
mod nodes;
mod sorts;
mod values;
mod views;

pub use layers::{EmptyList, Layer, List};
pub use nodes::{Content, Field, Kids, Node};
pub use sorts::{part_of, sort_of_part, term_of};
pub use values::{Value, binder_value, signature_value};
pub use views::{const_node, const_of, region_node, region_of, ty_node, ty_of};
