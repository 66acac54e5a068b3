//! Laws of terms and their readings. Each is the contract of a function that does nothing.

ghost use Rattle.ir_laws.specs.Formed.{PhrasesAreFormed};
ghost use Rattle.ir_laws.specs.Laws.{AnonIsScoped, ArgumentsAreGiven, IsReading, IsTheOnlyTerm, OpenIsReplaced, OpenIsScoped, OutIsShifted, PlacesReadAlike, ReadsApart, ReadsBack, ReadsScoped, RenumberIsScoped, ReplIsReplaced, ShiftIsScoped, ShiftReads, SubstIsScoped, SuperIsScoped};
ghost use Rattle.ir_laws.specs.SameLaws.{FieldsTell, IdsTell, KeywordsTell, KindsTell, LabelsTell, NumeralsAreDecimals, ParametersTell, SortsTell, TermsTell, WordsTell};

/// Back of the plain reading is the term.
#[tactic(auto, using(crate::proofs::ShiftRead::reads_back))]
pub fn reads_back()
    ensures { ReadsBack }
{}

/// Read some binders further out, a term is shifted.
#[tactic(auto, using(crate::proofs::ShiftRead::out_is_shifted))]
pub fn out_is_shifted()
    ensures { OutIsShifted }
{}

/// Read under answers, the variables of the outermost open binder are replaced.
#[tactic(auto, using(crate::proofs::Replace::repl_is_replaced))]
pub fn repl_is_replaced()
    ensures { ReplIsReplaced }
{}

/// A closed binder is opened by replacing the variables of its body.
pub fn open_is_replaced()
    ensures { OpenIsReplaced }
{}

/// Under frames that are all places, both readings are one.
#[tactic(auto, using(crate::proofs::ShiftRead::same_read))]
pub fn places_read_alike()
    ensures { PlacesReadAlike }
{}

/// Read under arguments, the parameters are given.
#[tactic(auto, using(crate::proofs::Given::arguments_are_given))]
pub fn arguments_are_given()
    ensures { ArgumentsAreGiven }
{}

/// Terms with equal readings under the same distinct levels are equal.
#[tactic(auto, using(crate::proofs::Apart::reads_apart))]
pub fn reads_apart()
    ensures { ReadsApart }
{}

/// Each named tree that is well scoped is the plain reading of its back.
#[tactic(auto, using(crate::proofs::IsRead::is_reading))]
pub fn is_reading()
    ensures { IsReading }
{}

/// Each reading is well scoped.
#[tactic(auto, using(crate::proofs::Scoped::read_scoped))]
pub fn reads_scoped()
    ensures { ReadsScoped }
{}

/// A term that was put under more binders reads under their frames as it did without them.
#[tactic(auto, using(crate::proofs::Deeper::shift_reads))]
pub fn shift_reads()
    ensures { ShiftReads }
{}

/// The reading of each command is well scoped.
#[tactic(auto, using(crate::proofs::Scoped::open_scoped, crate::proofs::Scoped::subst_scoped, crate::proofs::Scoped::shift_scoped, crate::proofs::Scoped::renumber_scoped, crate::proofs::Scoped::anon_scoped, crate::proofs::Scoped::super_scoped))]
pub fn commands_are_scoped()
    ensures open_is { OpenIsScoped }
    ensures subst_is { SubstIsScoped }
    ensures shift_is { ShiftIsScoped }
    ensures renumber_is { RenumberIsScoped }
    ensures anon_is { AnonIsScoped }
    ensures super_is { SuperIsScoped }
{}

/// The term of a well-scoped reading is the only one that reads so.
#[tactic(auto, using(crate::proofs::IsRead::is_the_only_term))]
pub fn is_the_only_term()
    ensures { IsTheOnlyTerm }
{}

/// Two terms are the same where the test says so.
#[tactic(auto, using(crate::proofs::SameTerm::term_decides))]
pub fn same_terms_are_equal()
    ensures { TermsTell }
{}

/// The tests on what terms are made of tell equality too.
#[tactic(auto, using(crate::proofs::SameParts::word_decides, crate::proofs::SameParts::keyword_decides, crate::proofs::SameParts::sort_decides, crate::proofs::SameParts::id_decides, crate::proofs::SameParts::kind_decides, crate::proofs::SameParts::field_decides, crate::proofs::SameParts::label_decides, crate::proofs::SameParts::parameter_decides))]
pub fn same_parts_are_equal()
    ensures words { WordsTell }
    ensures keywords { KeywordsTell }
    ensures sorts { SortsTell }
    ensures ids { IdsTell }
    ensures kinds { KindsTell }
    ensures fields { FieldsTell }
    ensures labels { LabelsTell }
    ensures parameters { ParametersTell }
{}

/// Numbers are written in decimal.
#[tactic(auto, using(crate::proofs::Numerals::numeral_is_decimal))]
pub fn numerals_are_decimals()
    ensures { NumeralsAreDecimals }
{}

/// What the grammar makes of expressions fits the table of labels.
pub fn phrases_are_formed()
    ensures { PhrasesAreFormed }
{}
