//! Laws of the table of `finish`, that says when the output of a finished test is shown.
//!
//! A law is a function that does nothing. Its clauses are what the prover proved about definitions.

ghost use Rattle.text_parts.specs.Finish.{IsOnlyHidden, IsSameBelowImmediate, is_shown_at_end, is_shown_at_once};

/// A cancel reason hides output and never adds any, neither immediately nor at the end of the run. A reason that is
/// less severe than `TestFailureImmediate` changes nothing.
pub fn reasons_only_hide()
    ensures at_once { IsOnlyHidden is_shown_at_once }
    ensures at_end { IsOnlyHidden is_shown_at_end }
    ensures same_at_once { IsSameBelowImmediate is_shown_at_once }
    ensures same_at_end { IsSameBelowImmediate is_shown_at_end }
{}
