//! What the rule of the tables says of their words, and that its premises can be met.

ghost use Rattle.std.specs.Prelude.{◌≡◌, ◌<◌, ◌^◌, ℕ, List, slice_index, []};
ghost use Rattle.atomic_table.specs.Table.{State, opening};
ghost use Rattle.cfi_word.specs.Table.{Place, IsPlace, word_number};
ghost use Rattle.cfi_model.specs.declared.history.Entry.{Entry};
ghost use Rattle.cfi_model.specs.Phases.{number_in, phase_of};
ghost use Rattle.cfi_model.specs.Tables.{IsTables, IsUpdate};
ghost use Rattle.cfi_model.specs.Words.{word_of_entry};
ghost use Rattle.cfi_tables.specs.Events.{ClearsAreEvents, FetchesAreEvents, LoadsAreEvents, ParksAreEvents};
ghost use Rattle.cfi_tables.specs.Events.{LoadsCome, ParksCome, PublishesAreEvents, StoresAreEvents, TestsAreEvents, TestsCome};
ghost use Rattle.cfi_tables.specs.Events.{LooksChangeNothing, RegistersSetOne, TellsChangeNothing};
ghost use Rattle.cfi_tables.specs.Key.{Key};
ghost use Rattle.cfi_tables.specs.Keeping.{entry_by, opened_keeping};
ghost use Rattle.cfi_tables.specs.Rule.{KeepsRule};
ghost use Rattle.cfi_model.specs.Words.{HasStore};
ghost use Rattle.cfi_tables.specs.Views.{idle_tables, opened_view, tables_of};
ghost use Rattle.cfi_tables.specs.declared.view.View.{View};

/// At every moment the words show the tables of the keeper's view.
///
/// `tables`: the keeper's view is tables, in some phase of an update. `words`: each word but the QUIET words is of the
/// entry that the table of phases names.
pub fn words_show_tables()
    ensures tables { (k : Key) (s : State (Unit {0}) View) → (kept : KeepsRule k s) →
        IsTables (tables_of k kept.keeper) }
    ensures words { (k : Key) (s : State (Unit {0}) View) → (kept : KeepsRule k s) →
        (place : Place) → IsPlace k.code_words place → HasStore place →
        let t = tables_of k kept.keeper in
        slice_index s.words (word_number k.code_words place)
        ≡ word_of_entry t (number_in (phase_of t) t place) place }
{}

/// The premises of the calls can be met.
///
/// `opens`: where the opening is of tables, and its code of 32 bits a word, some words keep the rule. `refresh`: the
/// entry in force may follow itself.
pub fn some_tables_are_kept()
    ensures opens { (k : Key) → IsTables (idle_tables k (opened_keeping k)) →
        ((index : ℕ) → slice_index k.image.code index < 2 ^ 32) →
        (words : List ℕ) × KeepsRule k (opening words [] (opened_view k)) }
    ensures refresh { (code_words : ℕ) (last : Entry) (mark : ℕ) →
        IsUpdate code_words last (entry_by last.policy last.image mark) }
{}

/// Each step of a pass and each store and test of the keeper is one event on what is shared.
///
/// A pass loads a word, fetches one, parks or publishes an epoch; the keeper tests a QUIET word, stores a word of an
/// update, or clears the QUIET word of a guest that leaves. Three steps are none: `registers`, by which a guest comes,
/// sets its QUIET word alone; `looks`, the keeper's load of a code word that it may store, and `tells`, its load of
/// EPOCH with a note, change nothing. Nor are two that no service makes: a guest that is parked parks again, which
/// changes nothing, or one that is not publishes an epoch, which sets its QUIET word alone. `test_comes`, `load_comes`
/// and `park_comes`: there are such steps.
pub fn steps_are_events()
    ensures loads { LoadsAreEvents }
    ensures fetches { FetchesAreEvents }
    ensures parks { ParksAreEvents }
    ensures publishes { PublishesAreEvents }
    ensures tests { TestsAreEvents }
    ensures stores { StoresAreEvents }
    ensures clears { ClearsAreEvents }
    ensures registers { RegistersSetOne }
    ensures looks { LooksChangeNothing }
    ensures tells { TellsChangeNothing }
    ensures test_comes { TestsCome }
    ensures load_comes { LoadsCome }
    ensures park_comes { ParksCome }
{}
