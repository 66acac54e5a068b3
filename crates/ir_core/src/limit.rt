//! Limits of terms.

/// How large terms may be, and how many parts an interner may hold. Each limit counts as at most its cap: index and number 65,535, height 512, nodes 2^32 - 1, size 2^48. A height below 3 counts as 3.
#[derive(Clone, Copy, PartialEq, Eq, Debug)]
pub struct Limits {
    /// The greatest de Bruijn index of a bound variable.
    pub index: u32,
    /// The greatest number of a variable in its binder's list.
    pub number: u32,
    /// The greatest height of a term: a leaf has height 1, another node one more than its highest kid.
    pub height: u32,
    /// How many parts the tables may hold.
    pub nodes: u64,
    /// The greatest size of the terms that one line spells.
    pub size: u64,
}
