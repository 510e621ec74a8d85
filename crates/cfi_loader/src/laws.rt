//! What holds of every loader.

ghost use Rattle.std.specs.Prelude.{◌≡◌, ◌==◌, ◌<◌, ℕ, List, [], ◌∷◌, All, count_by, length};
ghost use Rattle.cfi_aux.specs.declared.modules.Module.{Module};
ghost use Rattle.cfi_model.specs.declared.history.Refusal.{Refusal};
ghost use Rattle.cfi_model.specs.InForce.{history_of};
ghost use Rattle.cfi_plan.specs.declared.journal.Entry.{Entry};
ghost use Rattle.cfi_plan.specs.declared.journal.JournalLine.{JournalLine};
ghost use Rattle.cfi_plan.specs.declared.journal.Who.{Who};
ghost use Rattle.cfi_plan.specs.declared.journal.Who.TheVariants.{Guest};
ghost use Rattle.cfi_plan.specs.declared.plan.Plan.{Plan};
ghost use Rattle.cfi_plan.specs.Plan.{IsPlan};
ghost use Rattle.cfi_modules.specs.Series.{CanBeTaken};
ghost use Rattle.cfi_tables.specs.Key.{Key};
ghost use Rattle.cfi_valid.specs.Log.{is_versions};
ghost use Rattle.cfi_word.specs.declared.limits.TheConstants.{GUESTS};
ghost use Rattle.cfi_loader.specs.Mark.{mark_by};
ghost use Rattle.cfi_tables.specs.Views.{idle_tables};
ghost use Rattle.cfi_plan.specs.Bare.{bare_plan};
ghost use Rattle.cfi_valid.specs.FromLaw.{HasPolicies};
ghost use Rattle.cfi_valid.specs.Growth.{Continues};
ghost use Rattle.cfi_valid.specs.Journal.{members_of};
ghost use Rattle.cfi_valid.specs.Script.{Load, Retire, call_of};
ghost use Rattle.cfi_loader.specs.Fitting.{LoadFits, RetirementFits, ComesThrough, HasFewUpdates, HasVersion};
ghost use Rattle.cfi_loader.specs.Ledger.{Ledger, IsLedger};
ghost use Rattle.cfi_ledger.specs.Plans.{CanStart};
ghost use Rattle.cfi_ledger.specs.Journal.{asked_by};
ghost use Rattle.cfi_loader.specs.Told.{HasTold};

/// A load that fits is made, or no version or no epoch is left; and while few updates were made versions are left.
pub fn loads_that_fit_come_through()
    ensures through { (k : Key) (who : Who) (line : JournalLine) (number : ℕ) (old new : Ledger) →
        HasTold k (asked_by who line) old new → call_of line ≡ Load number
        → LoadFits old.course number →
        ComesThrough line }
    ensures versions { (k : Key) (who : Who) (line : JournalLine) (old new : Ledger) →
        HasTold k (asked_by who line) old new → HasFewUpdates old.course → HasVersion line }
{}

/// So is a retirement that fits.
pub fn retirements_that_fit_come_through()
    ensures { (k : Key) (plan : Plan) (modules : List Module) (who : Who) (line : JournalLine)
        (number : ℕ) (old new : Ledger) → IsLedger k plan modules old
        → HasTold k (asked_by who line) old new → call_of line ≡ Retire number
        → RetirementFits old.course number →
        ComesThrough line }
{}

/// The course goes on with each call that is told.
pub fn courses_go_on()
    ensures { (k : Key) (entry : Entry) (old new : Ledger) → HasTold k entry old new →
        Continues old.course new.course }
{}

/// Each epoch of the tables has the image of the modules that its policy finds loaded, under the edges of those that
/// are live.
pub fn histories_have_policies()
    ensures { (k : Key) (plan : Plan) (modules : List Module) (l : Ledger)
        → IsLedger k plan modules l →
        HasPolicies l.course.plan.code_words (members_of l.course.end)
        (history_of (idle_tables k l.keeping)) }
{}

/// A guest's lines of updates that were not admitted are the refusals with its mark.
pub fn refusals_are_versions_lines()
    ensures { (k : Key) (plan : Plan) (modules : List Module) (l : Ledger)
        → IsLedger k plan modules l →
        (guest number : ℕ) → guest < GUESTS → number < length plan.modules →
        count_by (λ (r : Refusal). r.mark == mark_by (Guest guest) (Load number)) l.keeping.refusals
        ≡ count_by (is_versions guest number) l.course.journal }
{}

/// A plan that was read can be started with modules that can be taken, one a line; so can that of a bare file.
pub fn plans_can_start()
    ensures plan { (plan : Plan) (modules : List Module) → IsPlan plan →
        length modules ≡ length plan.modules → All CanBeTaken modules → CanStart plan modules }
    ensures bare { (m : Module) → CanBeTaken m → CanStart bare_plan (m ∷ []) }
{}
