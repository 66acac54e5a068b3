//! The one making call.
ghost use Rattle.ir_laws.specs.Heap.{Each, IsLive, names_in};
ghost use Rattle.ir_nodes.specs.Fits.{layer_fits, layer_sort, part_by};
ghost use Rattle.ir_table.specs.Heaps.{heap_of};
ghost use Rattle.ir_table.specs.Interner.{rises, stored};
ghost use Rattle.ir_table.specs.Tabled.{is_owned};
ghost use Rattle.ir_table.specs.State.{NewAnswers, width};
ghost use Rattle.std.specs.Prelude.{◌≡◌, length, true};

use crate::ListKey;
use crate::store::Store;
use crate::tabled::Tabled;
use ir_core::R;

impl Store {
    // Where the key stands, which is put in where it is new.
    pub(crate) fn make<K: Tabled>(&mut self, key: K) -> R<u32>
        requires live { Each (IsLive (heap_of self.old.tables)) (names_in (K.layer key)) }
        requires fits { layer_fits (K.layer key) ≡ true }
        requires owned { is_owned K.owns (layer_sort (K.layer key)) ≡ true }
        ensures answers { NewAnswers (part_by (layer_sort (K.layer key))) (stored self.old) (stored self.new) (K.layer key) result }
        ensures asked { self.new.asked ≡ rises self.old.asked }
    {
        self.asked = self.asked.saturating_add(1);
        if let Some(index) = key.find(&self.tables) {
            return Ok(index as u32);
        }
        let info = self.admit(key.above(self))?;
        let index = K::len(&self.tables);
        key.push(&mut self.tables, info)?;
        Ok(index as u32)
    }

    // The same of the list of the items.
    pub(crate) fn make_list<L: ListKey + Tabled>(&mut self, items: &[L::Item]) -> R<u32>
        requires live { Each (IsLive (heap_of self.old.tables)) (names_in (L.items_layer items.now)) }
        requires fits { layer_fits (L.items_layer items.now) ≡ true }
        requires owned { is_owned L.owns (layer_sort (L.items_layer items.now)) ≡ true }
        requires wide { width (L.items_layer items.now) ≡ length items.now }
        ensures answers { NewAnswers (part_by (layer_sort (L.items_layer items.now))) (stored self.old) (stored self.new) (L.items_layer items.now) result }
        ensures asked { self.new.asked ≡ rises self.old.asked }
    {
        match L::from_slice(self.alloc, items) {
            Ok(key) => self.make(key),
            Err(error) => {
                self.asked = self.asked.saturating_add(1);
                Err(error.into())
            }
        }
    }
}
