//! What holds of the policy of placed modules.

ghost use Rattle.std.specs.Prelude.{◌≡◌, ℕ, List, [], ◌∷◌};
ghost use Rattle.cfi_aux.specs.declared.placed.Placed.{Placed};
ghost use Rattle.cfi_graph.specs.Direct.{IsImportTarget, DirectEdge, Allowed};
ghost use Rattle.cfi_graph.specs.Reading.{HaveGraph};

/// The policy of modules allows each of their direct edges.
pub fn direct_is_allowed()
    ensures { (ms : List Placed) (slot address : ℕ) → DirectEdge ms slot address →
        Allowed ms slot address }
{}

/// What a name means to the modules that import it is at one address, if anywhere.
pub fn a_name_means_one_address()
    ensures { (ms : List Placed) (name : List ℕ) (one other : ℕ) → IsImportTarget ms name one →
        IsImportTarget ms name other → one ≡ other }
{}

/// A graph can be made of some module.
pub fn some_module_has_graph()
    ensures { (m : Placed) × HaveGraph (m ∷ []) }
{}
