//! The parts of labels that are a word alone.
ghost use Rattle.ir_core.specs.declared.handles.Part.{Part as PartSeen};
ghost use Rattle.ir_laws.specs.Heap.{Heap};
ghost use Rattle.ir_laws.specs.Label.{row};
ghost use Rattle.ir_script.specs.Kept.{AreLeaves, IsLeafOf, leaf_root};
ghost use Rattle.ir_script.specs.Making.{IsRoot};
ghost use Rattle.std.specs.Prelude.{◌≡◌, [], IfSome};

use ir_core::Part;
use ir_laws::Word;

/// For each word a place, which some words share.
const PLACES: usize = 64;

/// Parts that are labels of a word alone, each with its word, so that a word that was met is not looked up in the tables again. A part's tree never changes, so this stays so while an interner grows.
#[derive(Clone, Copy)]
pub(crate) struct Leaves {
    parts: [Option<(Word, Part)>; 64],
}

impl Leaves {
    /// No parts.
    pub(crate) fn new() -> Leaves
        ensures { (h : Heap PartSeen) → AreLeaves h result }
    {
        Leaves { parts: [None; 64] }
    }

    /// The part of the word, if it is known.
    pub(crate) fn find(&self, word: Word) -> Option<Part>
        ensures { (h : Heap PartSeen) → AreLeaves h self.now → IfSome result (IsLeafOf h word) }
    {
        let (known, part) = self.parts[word as usize % PLACES]?;
        if known == word { Some(part) } else { None }
    }

    /// Remembers the part of a label of the word, where that is the word alone.
    pub(crate) fn keep(&mut self, word: Word, part: Part)
        ensures { (h : Heap PartSeen) → AreLeaves h self.old → ((row word).parts ≡ [] → IsRoot h (leaf_root word) part) → AreLeaves h self.new }
    {
        if word.parts().is_empty() {
            self.parts[word as usize % PLACES] = Some((word, part));
        }
    }
}
