//! That what has run is a valid part.

ghost use Rattle.cfi_guest_part.specs.Laws.{RunsMakeParts};

/// A guest that has run over the history of a course, and has stopped, has a valid part, and shows the policy machine.
pub fn runs_make_parts()
    ensures { RunsMakeParts }
{}
