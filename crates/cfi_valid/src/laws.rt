//! What holds of valid reports, and that there are some.

ghost use Rattle.std.specs.Prelude.{◌≡◌, ℕ, List, [], ◌∷◌, ◌++◌, All, map};
ghost use Rattle.cfi_aux.specs.declared.modules.Module.{Module};
ghost use Rattle.cfi_aux.specs.Sound.{IsSoundModule};
ghost use Rattle.cfi_plan.specs.declared.journal.Entry.{Entry};
ghost use Rattle.cfi_plan.specs.declared.plan.Plan.{Plan};
ghost use Rattle.cfi_report.specs.declared.report.Report.{Report};
ghost use Rattle.cfi_valid.specs.Agree.{AgreeIn};
ghost use Rattle.cfi_plan.specs.Bare.{bare_plan};
ghost use Rattle.cfi_valid.specs.Example.{hello_module, hello_report};
ghost use Rattle.cfi_valid.specs.FromLaw.{StepsAreUnits};
ghost use Rattle.cfi_valid.specs.Growth.{IsLater, LoadedStays, LiveStays, LogStays};
ghost use Rattle.cfi_valid.specs.Growth.{SettledLies, LogGrows, PicksGrow};
ghost use Rattle.cfi_valid.specs.Journal.{JournalState, EntryLeads, EntriesLead, IsJournal};
ghost use Rattle.cfi_modules.specs.Series.{IsSeries};
ghost use Rattle.cfi_valid.specs.Loaded.{LoadedModule, placed_modules, module_line_of};
ghost use Rattle.cfi_valid.specs.Modules.{HasModules};
ghost use Rattle.cfi_word.specs.Table.{IsSize};
ghost use Rattle.cfi_valid.specs.LoadExample.{opener, plug, load_plan, load_report};
ghost use Rattle.cfi_valid.specs.Policies.{ImagesArePolicies};
ghost use Rattle.cfi_valid.specs.Running.{ReplayGoesOn};
ghost use Rattle.cfi_valid.specs.TableExample.{lib_module, main_module, plug_module, table_plan, table_report};
ghost use Rattle.cfi_valid.specs.Valid.{IsValidReport};

/// A journal leads to one state.
pub fn journals_lead_to_one_state()
    ensures { (plan : Plan) (modules : List Module) (journal : List Entry) (a b : JournalState) →
        IsJournal plan modules journal a → IsJournal plan modules journal b → a ≡ b }
{}

/// One line more is one fact more, and nothing before it is looked at again.
pub fn journals_grow_by_a_line()
    ensures more { (plan : Plan) (modules : List Module) (old mid new : JournalState)
        (journal : List Entry) (entry : Entry) → EntriesLead plan modules old journal mid →
        EntryLeads plan modules mid entry new →
        EntriesLead plan modules old (journal ++ entry ∷ []) new }
    ensures last { (plan : Plan) (modules : List Module) (old new : JournalState)
        (journal : List Entry) (entry : Entry) →
        EntriesLead plan modules old (journal ++ entry ∷ []) new →
        (mid : JournalState) × EntriesLead plan modules old journal mid
        × EntryLeads plan modules mid entry new }
{}

/// The lines that say that a module was loaded or retired tell which modules a report has and where they stand, whether
/// the journal is legal or not; a legal one leads to these.
pub fn lines_tell_modules()
    ensures one { (plan : Plan) (modules : List Module) (report : Report)
        (a b : List LoadedModule) → HasModules plan modules report a →
        HasModules plan modules report b → a ≡ b }
    ensures legal { (plan : Plan) (modules : List Module) (report : Report) (end : JournalState) →
        IsJournal plan modules report.journal end →
        report.modules ≡ map (module_line_of plan.modules) end.loaded →
        HasModules plan modules report end.loaded }
{}

/// The modules to which a journal leads are a series, where the plan's modules are sound.
pub fn journals_make_a_series()
    ensures { (plan : Plan) (modules : List Module) (journal : List Entry) (end : JournalState) →
        IsSize plan.code_words → All IsSoundModule modules → IsJournal plan modules journal end →
        IsSeries plan.code_words (placed_modules end.loaded) }
{}

/// Valid reports of one plan and one journal agree in the force, the modules, and the end of each guest that logged
/// the same, where it ran as many units or no fuel stopped it: what it put, and why it stopped, are told by its log.
pub fn valid_reports_agree()
    ensures { (plan : Plan) (modules : List Module) (a b : Report) →
        IsValidReport plan modules a → IsValidReport plan modules b → a.journal ≡ b.journal
        → AgreeIn a b }
{}

/// Where a journal goes on, each policy finds loaded what it found loaded, what was live under it is live under it, and
/// what a guest has logged still fits.
pub fn what_was_logged_stays()
    ensures later { (plan : Plan) (modules : List Module) (old new : JournalState)
        (journal : List Entry) → EntriesLead plan modules old journal new → IsLater old new }
    ensures loaded { LoadedStays }
    ensures live { LiveStays }
    ensures log { LogStays }
{}

/// A log with one entry more fits where the entry does: its policy closes the spans of those before it.
pub fn logs_grow()
    ensures entry { LogGrows }
    ensures pick { PicksGrow }
{}

/// A policy that was settled when an open was answered closes the span of its entry: what lies in it then lies in the
/// span that the whole log gives.
pub fn settled_policies_close_spans()
    ensures { SettledLies }
{}

/// A replay goes on one unit at a time, over what the guest has logged so far.
pub fn replays_go_on()
    ensures { ReplayGoesOn }
{}

/// A step that the law of a running guest gives is a unit of a replay, where each epoch's image is that of the modules
/// that its policy finds loaded, and each answer brings the data that is due, and the cells where they are filled.
pub fn steps_are_units()
    ensures { StepsAreUnits }
{}

/// What a check compares is what the policy of an image allows, whatever slot and address it has.
pub fn images_are_policies()
    ensures { ImagesArePolicies }
{}

/// The report of the file that puts one `H` is valid.
pub fn some_report_is_valid()
    ensures { IsValidReport bare_plan (hello_module ∷ []) (hello_report (0x48 ∷ [])) }
{}

/// The same with one byte of output more is not.
pub fn more_output_is_not_valid()
    ensures { (byte : ℕ)
        → ¬ IsValidReport bare_plan (hello_module ∷ []) (hello_report (0x48 ∷ byte ∷ [])) }
{}

/// The report of a run in which a guest opens a module, calls it and returns is valid, and its journal's line can
/// have no other epoch.
pub fn some_report_of_a_load_is_valid()
    ensures valid { IsValidReport load_plan (opener ∷ plug ∷ []) (load_report 1) }
    ensures epoch { (epoch : ℕ) → IsValidReport load_plan (opener ∷ plug ∷ []) (load_report epoch)
        → epoch ≡ 1 }
{}

/// The report of a run of three modules, with tables in data, relocations, cases, tail calls and a load, is valid, and
/// with one byte of output more it is not.
pub fn some_report_with_tables_is_valid()
    ensures valid { IsValidReport table_plan (lib_module ∷ main_module ∷ plug_module ∷ [])
        (table_report (10 ∷ 66 ∷ 67 ∷ [])) }
    ensures more { (byte : ℕ)
        → ¬ IsValidReport table_plan (lib_module ∷ main_module ∷ plug_module ∷ [])
        (table_report (10 ∷ 66 ∷ 67 ∷ byte ∷ [])) }
{}
