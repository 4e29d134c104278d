//! Laws of the order of a summary.
//!
//! A law is a function that does nothing. Its clauses are what the prover proved about definitions.

ghost use Rattle.std.specs.Prelude.{◌≡◌, List};
ghost use Rattle.reporter_state.specs.Names.{final_order, IsFinalOrder, FinalOutputEntry};

/// The kept entries have exactly one final order: by key, and entries of one key in the order in which they were kept.
///
/// A summary is defined by that list, so there is one right text however a reporter sorts its entries.
pub fn one_final_order()
    ensures exists { (kept : List FinalOutputEntry) → IsFinalOrder kept (final_order kept) }
    ensures only { (kept order : List FinalOutputEntry) → IsFinalOrder kept order → order ≡ final_order kept }
{}
