//! The marks by which the keeper's history tells who asked for an update.

ghost use Rattle.std.specs.Prelude.{◌≡◌, ◌<◌};
ghost use Rattle.cfi_word.specs.declared.limits.TheConstants.{MAX_MODULES};
ghost use Rattle.cfi_plan.specs.declared.journal.Who.TheVariants.{Script};
ghost use Rattle.cfi_valid.specs.Script.{Load, Retire};
ghost use Rattle.cfi_loader.specs.Mark.{IsAsker, mark_by};

use cfi_plan::Who;

/// The mark of a refresh.
pub const REFRESH_MARK: u32 = 65_535;

/// How far apart the marks of two guests are, for a load of one module: more than any module's number.
pub const GUEST_MARKS: u32 = 256;

/// How far above its module's number the mark of a retirement is: more than any module's number, and less than a guest's
/// marks are apart.
pub const RETIREMENT_MARKS: u32 = 128;

/// The mark of the retirement of the module of this number.
pub(crate) fn retirement_mark(number: u32) -> u32
    requires { number < MAX_MODULES }
    ensures { result ≡ mark_by Script (Retire number) }
{
    RETIREMENT_MARKS + number
}

/// The mark of the load of the module of this number.
pub(crate) fn load_mark(who: Who, number: u32) -> u32
    requires asker { IsAsker who }
    requires number { number < MAX_MODULES }
    ensures { result ≡ mark_by who (Load number) }
{
    match who {
        Who::Script => number,
        Who::Guest(guest) => number + GUEST_MARKS * (guest + 1),
    }
}
