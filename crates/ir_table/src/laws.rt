//! What callers may rely on at any moment of an interner, for handles of each sort.
ghost use Rattle.ir_table.specs.Laws.{AreGiven, AreTold, OnlyAdds, PartsAreCounted, PartsAreTold};

use ir_core::Handle;

/// Two live handles of one sort in one interner are equal exactly where they stand for one term, and so are two parts of any sort.
pub fn equal_handles<T: Handle>()
    ensures handles { AreTold T.part }
    ensures parts { PartsAreTold }
{}

/// The number of parts is that of the different terms that stand for them.
pub fn parts_are_counted()
    ensures { PartsAreCounted }
{}

/// Whatever a making call answers, older parts stay live, and keep their trees and their cached info.
pub fn interning_only_adds<T: Handle>()
    ensures { OnlyAdds T.part }
{}

/// A making call of a node that is held already, or of a list of at most eight items that is, is answered, whatever memory there is.
pub fn held_nodes_are_given<T: Handle>()
    ensures { AreGiven T.part }
{}
