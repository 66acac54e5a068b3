//! Terms whose nodes are each kept once, and named by small handles.
#![tactic(auto)]

mod above;
mod cached;
mod info;
mod intern;
mod laws;
mod layers;
mod listed;
mod lists;
mod live;
mod make;
mod names;
mod remake;
mod spelling;
mod start;
mod store;
mod table;
mod tabled;
mod terms;
#[cfg(test)]
mod tests;

ghost use Rattle.ir_table.specs.Heaps.{heap_of};
ghost use Rattle.ir_table.specs.Start.{are_named};
ghost use Rattle.std.specs.Prelude.{◌≡◌, true};

pub use cached::Cached;
pub use info::{CachedInfo, CachedSize};
pub use intern::{Intern, InternList};
use ir_core::{DefaultAny, Limits};
pub use laws::{equal_handles, held_nodes_are_given, interning_only_adds, parts_are_counted};
pub use listed::{Listed, variables_are_listed};
pub use lists::{dummy, inputs, output};
pub use live::Live;
pub use names::{Names, NoNames};
pub use spelling::{Spellings, spell, spell_again};
use store::Store;
pub use table::{Key, ListKey, Member, Table};

/// All terms, and the limits of these: each part is held once, and its handle is its place in the table of its sort.
#[derive(Drop)]
pub struct Interner {
    store: Store,
    defaults: DefaultAny,
    pub ghost start: { are_named (heap_of store.tables) defaults ≡ true },
}

impl Interner {
    ghost use Rattle.ir_laws.specs.Heap.{Each};
    ghost use Rattle.ir_table.specs.Interner.{asked, heap, state};
    ghost use Rattle.ir_table.specs.Limits.{limits_seen};
    ghost use Rattle.ir_table.specs.Start.{Names, named_start};

    /// The limits that it was made with, as they were given.
    pub fn limits(&self) -> Limits
        ensures { limits_seen result ≡ (state self.now).limits }
    {
        self.store.limits
    }

    /// The handles of the parts that are there from the start.
    pub fn default_types(&self) -> &DefaultAny
        ensures { Each (Names (heap self.now)) (named_start result.now) }
    {
        &self.defaults
    }

    /// How many parts are held.
    pub fn len(&self) -> u64
        ensures { result ≡ (state self.now).count }
    {
        self.store.len()
    }

    /// How many making calls were asked. It ends at its type's last value.
    pub fn asked(&self) -> u64
        ensures { result ≡ asked self.now }
    {
        self.store.asked
    }
}
