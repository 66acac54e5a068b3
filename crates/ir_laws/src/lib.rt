//! What terms are, what they say, and what a script answers: definitions, and laws about them.
#![tactic(auto)]

mod items;
mod labels;
mod laws;
mod table;
mod words;

pub use items::ItemKind;
pub use labels::{
    ArgumentCount, Choice, FieldForm, FixedWord, IfEmpty, ItemPlace, Keyword, KidForm, Part, Row,
    Sort,
};
pub use laws::{
    arguments_are_given, commands_are_scoped, is_reading, is_the_only_term, numerals_are_decimals,
    open_is_replaced, out_is_shifted, phrases_are_formed, places_read_alike, reads_apart,
    reads_back, reads_scoped, repl_is_replaced, same_parts_are_equal, same_terms_are_equal,
    shift_reads,
};
pub use table::LABEL_WORDS;
pub use words::Word;
