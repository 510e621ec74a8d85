//! What holds of modules against which no fault stands.

ghost use Rattle.std.specs.Prelude.{◌⊎◌, List};
ghost use Rattle.cfi_aux.specs.declared.placed.Placed.{Placed};
ghost use Rattle.cfi_verify.specs.Fault.{IsFirstFault, IsVerified, Verifies};
ghost use Rattle.cfi_verify.specs.declared.fault.VerifyFault.{VerifyFault};

/// No fault stands against a module exactly where it is verified: its words are units, and each row holds of them.
pub fn no_fault_is_verified()
    ensures verified { (m : Placed) (loaded : List Placed) → Verifies m loaded
        → IsVerified m loaded }
    ensures no_fault { (m : Placed) (loaded : List Placed) → IsVerified m loaded
        → Verifies m loaded }
{}

/// Each module is verified, or some fault is its first: with `one_first_fault` of `cfi_verify`, exactly one is.
pub fn verified_or_first_fault()
    ensures { (m : Placed) (loaded : List Placed) →
        IsVerified m loaded ⊎ ((fault : VerifyFault) × IsFirstFault m loaded fault) }
{}
