//! What holds of verify faults.

ghost use Rattle.std.specs.Prelude.{◌≡◌, List, []};
ghost use Rattle.cfi_aux.specs.declared.placed.Placed.{Placed};
ghost use Rattle.cfi_verify.specs.declared.fault.VerifyFault.{VerifyFault};
ghost use Rattle.cfi_verify.specs.Fault.{IsFirstFault, IsVerified, Verifies};
ghost use Rattle.cfi_verify.specs.Example.{loop_module};

/// A module has at most one first fault.
pub fn one_first_fault()
    ensures { (m : Placed) (loaded : List Placed) (a b : VerifyFault) →
        IsFirstFault m loaded a → IsFirstFault m loaded b → a ≡ b }
{}

/// Some module verifies: the one function `j .`, of a type of functions, at any place.
pub fn some_module_verifies()
    ensures { IsVerified loop_module [] }
{}
