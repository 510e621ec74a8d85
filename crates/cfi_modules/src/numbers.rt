//! Faults of joining by their numbers.

ghost use Rattle.std.specs.Prelude.{◌≡◌, ◌≢◌, ℕ, List, Some};
ghost use Rattle.cfi_aux.specs.declared.modules.Module.{Module};
ghost use Rattle.cfi_aux.specs.declared.placed.Placed.{Placed};
ghost use Rattle.cfi_verify.specs.Fault.{fault_number, fault_place};
ghost use Rattle.cfi_verify.specs.declared.fault.VerifyFault.{VerifyFault};
ghost use Rattle.cfi_modules.specs.declared.fault.JoinFault.{JoinFault};
ghost use Rattle.cfi_modules.specs.declared.fault.JoinFault.TheVariants.{Verify, Memory};
ghost use Rattle.cfi_modules.specs.declared.numbers.FaultNumbers.{FaultNumbers};
ghost use Rattle.cfi_modules.specs.Numbers.{place_numbers, verify_numbers, numbers_of};
ghost use Rattle.cfi_modules.specs.Order.{IsJoinFault};

use crate::fault::JoinFault;
use cfi_place::PlaceFault;
use cfi_verify::VerifyFault;

/// A fault of joining by numbers, as the line of a journal tells it.
#[derive(Clone, Copy, Debug, PartialEq, Eq)]
pub enum FaultNumbers {
    /// The module is not placed.
    Place {
        /// The fault's kind, from 1 in the order of `PlaceFault`.
        number: u32,
    },
    /// It does not verify.
    Verify {
        /// The fault's kind, from 1 in the order of `VerifyFault`.
        number: u32,
        /// The fault's place, as `VerifyFault` has it, or 0.
        place: u32,
    },
}

// The numbers of a fault of placing.
fn place_numbers(fault: &PlaceFault) -> Option<FaultNumbers>
    ensures { result ≡ place_numbers fault.now }
{
    match fault {
        PlaceFault::Undefined(_) => Some(FaultNumbers::Place { number: 1 }),
        PlaceFault::CodeFull => Some(FaultNumbers::Place { number: 2 }),
        PlaceFault::DataFull => Some(FaultNumbers::Place { number: 3 }),
        PlaceFault::Reloc(_, _) => Some(FaultNumbers::Place { number: 4 }),
        PlaceFault::Memory => None,
    }
}

// The number of the kind of a fault of verifying.
fn verify_number(fault: VerifyFault) -> u32
    ensures { result ≡ fault_number fault }
{
    match fault {
        VerifyFault::Empty => 1,
        VerifyFault::Illegal(_) => 2,
        VerifyFault::NotUnit(_) => 3,
        VerifyFault::Slot(_) => 4,
        VerifyFault::Functions(_) => 5,
        VerifyFault::FallsThrough(_) => 6,
        VerifyFault::Target(_) => 7,
        VerifyFault::Kinds(_) => 8,
        VerifyFault::Switch(_) => 9,
        VerifyFault::Memory => 10,
    }
}

// The place of a fault of verifying.
fn verify_place(fault: VerifyFault) -> u32
    ensures { result ≡ fault_place fault }
{
    match fault {
        VerifyFault::Empty | VerifyFault::Memory => 0,
        VerifyFault::Illegal(offset)
        | VerifyFault::NotUnit(offset)
        | VerifyFault::Slot(offset)
        | VerifyFault::Target(offset)
        | VerifyFault::Kinds(offset) => offset,
        VerifyFault::Functions(function) | VerifyFault::FallsThrough(function) => function,
        VerifyFault::Switch(branch) => branch,
    }
}

// The numbers of a fault of verifying.
fn verify_numbers(fault: VerifyFault) -> Option<FaultNumbers>
    ensures { result ≡ verify_numbers fault }
{
    match fault {
        VerifyFault::Memory => None,
        fault => Some(FaultNumbers::Verify {
            number: verify_number(fault),
            place: verify_place(fault),
        }),
    }
}

impl JoinFault {
    /// The numbers by which the line of a journal tells it; None where memory ran out.
    pub fn numbers(&self) -> Option<FaultNumbers>
        ensures { result ≡ numbers_of self.now }
    {
        match self {
            JoinFault::Place(fault) => place_numbers(fault),
            JoinFault::Verify(fault) => verify_numbers(*fault),
            JoinFault::Memory => None,
        }
    }
}

/// Why a module does not join has numbers, if memory is there, and those of verifying tell the fault.
pub fn join_faults_have_numbers()
    ensures some { (code_words : ℕ) (before live : List Placed) (m : Module)
        (fault : JoinFault) →
        IsJoinFault code_words before live m fault → fault ≢ Memory →
        (n : FaultNumbers) × (numbers_of fault ≡ Some n) }
    ensures verify { (a b : VerifyFault) (n : FaultNumbers) →
        numbers_of (Verify a) ≡ Some n → numbers_of (Verify b) ≡ Some n → a ≡ b }
{}
