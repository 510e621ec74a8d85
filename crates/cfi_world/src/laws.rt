//! What holds of a world over every list of events.

ghost use Rattle.std.specs.Prelude.{◌≡◌, ℕ, ◌+◌, ◌≤◌, Option, Some, List, [], ◌∷◌};
ghost use Rattle.cfi_model.specs.World.{World as Whole};
ghost use Rattle.cfi_world.specs.Bounds.{UpdatesAreBounded};
ghost use Rattle.cfi_world.specs.Checks.{GuestsStandInUnits, HaltsAreForbidden, LastWordsAreLedTo};
ghost use Rattle.cfi_world.specs.Checks.{PicksHoldThroughout, RepeatsAreForOwnWords, RepeatsMeetUpdates};
ghost use Rattle.cfi_world.specs.Counts.{RepeatsAreCounted};
ghost use Rattle.cfi_world.specs.Laws.{BaryLoads, TaryLoads, PicksAreInForce};
ghost use Rattle.cfi_world.specs.Laws.{OpensAWorld, StaysAWorld, TurnsRefine, OthersStay};
ghost use Rattle.cfi_world.specs.Laws.{OnlyUpdatesStore, ForceNeverFalls, MayTurns};
ghost use Rattle.cfi_model.specs.declared.phase.Phase.TheVariants.{Idle};
ghost use Rattle.cfi_model.specs.Phases.{phase_of};
ghost use Rattle.cfi_model.specs.Words.{epoch_in_force};
ghost use Rattle.cfi_word.specs.declared.lists.Image.{Image};
ghost use Rattle.cfi_world.specs.Outcomes.{HasGuest, IsNothing, IsOpening, IsRefusal, TheLeastRefuses};
ghost use Rattle.cfi_world.specs.Outcomes.{PublishesNoneAbove};
ghost use Rattle.cfi_word.specs.declared.limits.TheConstants.{MAX_EPOCH, MIN_CODE_WORDS, MIN_VERSIONS, MAX_VERSIONS};
ghost use Rattle.cfi_world.specs.Example.{last_answers, last_events, last_world};
ghost use Rattle.cfi_world.specs.Example.{open_image, open_guests, open_world, open_events, open_answers, turned_after};
ghost use Rattle.cfi_world.specs.Premises.{CanOpen, MayTurn};
ghost use Rattle.cfi_world.specs.Retry.{call_world, call_guests, call_image, endings_after, kept_after, forces_along};
ghost use Rattle.cfi_world.specs.Retry.{HasTry, NobodyIsPutThere};
ghost use Rattle.cfi_world.specs.Retry.{load_count, load_events, load_forces, load_phases, loads, phases_along};
ghost use Rattle.cfi_world.specs.Retry.{found_answers, found_events, parked_answers, parked_events};
ghost use Rattle.cfi_world.specs.Retry.{picked_ending, refresh_answers, refresh_events, retry_events, tried_words};
ghost use Rattle.cfi_world.specs.Steps.{RunsAreSteps};
ghost use Rattle.cfi_world.specs.Turns.{nothing, turn_of};
ghost use Rattle.cfi_world.specs.Worlds.{IsWorld};
ghost use Rattle.cfi_world.specs.SharedTurns.{TurnsAreEvents};
ghost use Rattle.cfi_world.specs.declared.event.Event.TheVariants.{Begin, Guest, Update};
ghost use Rattle.cfi_world.specs.declared.event.Event.{Event as Happening};
ghost use Rattle.cfi_world.specs.declared.event.Turned.TheVariants.{Asks, EpochsSpent, Nothing, VersionsSpent};

/// What holds of a world at every moment, after any list of events: of its tables, and that each guest runs.
///
/// MCFI: the tables change in one order, and no version comes again while a check may hold a word that has it.
pub fn a_world_stays()
    ensures opens { OpensAWorld }
    ensures stays { StaysAWorld }
{}

/// Every event leaves what a guest shows as it was, or makes it one unit of the policy machine later.
///
/// A check's unit is run under the policy of the two table words that the guest kept. `others`: only its own events and
/// answers change a guest. `stores`: only the updater's events change the tables. `force`: the epoch and the policy in
/// force never fall. `halts`: a check stops a guest only for a target outside the code, or for an edge that the policy
/// of the two kept words forbids. `units`: a guest stands between two units at a start, or inside the one that it has
/// begun there, where what it has loaded since has led it; and it has a step for what it fetches. `led`: so on a
/// check's last word stands only one whose try has found an edge that is allowed.
pub fn events_refine_guests()
    ensures refines { TurnsRefine }
    ensures others { OthersStay }
    ensures stores { OnlyUpdatesStore }
    ensures force { ForceNeverFalls }
    ensures halts { HaltsAreForbidden }
    ensures units { GuestsStandInUnits }
    ensures led { LastWordsAreLedTo }
{}

/// After any list of events from the opening on, each guest has made some number of steps of the policy machine.
///
/// It shows the state to which they have led. Each step came with one event, and each check that asked a policy was run
/// under that of an epoch which was in force at each moment of its window: from the load of its slot's word to that of
/// its target's, the two words that its guest kept.
pub fn runs_are_steps()
    ensures { RunsAreSteps }
{}

/// Of which epochs the words are that a try finds.
///
/// `bary` and `tary`: a slot's word is not of a later epoch than the one in force, a target's not of an earlier one,
/// and where two words are of different epochs the update between them was under way. `picks`: a target's word with
/// the version of the kept word is of its epoch, which is the one in force at this moment. `window`: it is in force
/// at each moment of the try's window, and so is its policy. `repeats`: a try whose words have different versions meets
/// an update. `own`: a guest that goes back to its next try keeps two words with different versions, for which it does
/// so, and has one repeated try more. `counts`: how many it has follows from its place and its count of instructions.
pub fn tries_find_epochs()
    ensures bary { BaryLoads }
    ensures tary { TaryLoads }
    ensures picks { PicksAreInForce }
    ensures window { PicksHoldThroughout }
    ensures repeats { RepeatsMeetUpdates }
    ensures own { RepeatsAreForOwnWords }
    ensures counts { RepeatsAreCounted }
{}

/// Nothing comes in seven cases alone, and the world is then as it was.
pub fn nothing_comes_in_seven_cases()
    ensures same { (w : Whole) (event : Happening) → IsNothing w event
        → turn_of w event ≡ nothing w }
    ensures only { (w : Whole) (event : Happening) → (turn_of w event).answer ≡ Nothing →
        IsNothing w event }
{}

/// An update is refused exactly where its test meets a guest that has published an epoch too far below.
///
/// `least`: it is the least such guest, since the test has loaded the words of all lesser numbers, and each let the
/// update go on. It exists, is still registered, and is not parked. `above`: it has at no moment published a later
/// epoch. `many`: since it found the epoch that it published in force, at least V - 2 updates were made.
pub fn the_least_guest_refuses_an_update()
    ensures spent { (w : Whole) (guest quiet : ℕ) → IsRefusal w guest quiet →
        (turn_of w Update).answer ≡ VersionsSpent guest quiet }
    ensures only { (w : Whole) (event : Happening) (guest quiet : ℕ) →
        (turn_of w event).answer ≡ VersionsSpent guest quiet →
        (event ≡ Update) × IsRefusal w guest quiet }
    ensures least { TheLeastRefuses }
    ensures guest { (w : Whole) (guest quiet : ℕ) → IsWorld w → IsRefusal w guest quiet →
        HasGuest w guest }
    ensures above { PublishesNoneAbove }
    ensures many { (w : Whole) (guest quiet : ℕ) → IsWorld w → IsRefusal w guest quiet →
        quiet + w.tables.versions ≤ epoch_in_force w.tables + 2 }
{}

/// At each moment of a run from its opening on, updates are bounded by what each guest has published.
///
/// Of a guest whose QUIET word tells an epoch, take the last update whose test has passed that word, whatever became of
/// it then: no target's word is of a later epoch. Either this update is within V - 2 of what the guest has published,
/// and each slot's word that it has loaded since is at most one epoch behind that; or the test loaded its word before
/// its present store, and each slot's word that it has loaded since is at most one epoch behind the update.
pub fn updates_are_bounded()
    ensures { UpdatesAreBounded }
{}

/// Epochs are spent where a Begin meets the greatest epoch in force, and no update is under way.
pub fn the_greatest_epoch_is_the_last()
    ensures spent { (w : Whole) (image : Option Image) → phase_of w.tables ≡ Idle →
        epoch_in_force w.tables ≡ MAX_EPOCH →
        turn_of w (Begin image) ≡ record { world = w; answer = EpochsSpent } }
    ensures only { (w : Whole) (image : Option Image) →
        (turn_of w (Begin image)).answer ≡ EpochsSpent →
        (phase_of w.tables ≡ Idle) × (epoch_in_force w.tables ≡ MAX_EPOCH) }
{}

/// A guest asks for an answer where it parks, in an open that may be logged.
pub fn an_open_asks_for_its_answer()
    ensures asks { (w : Whole) (guest number : ℕ) → IsOpening w guest number →
        (turn_of w (Guest guest)).answer ≡ Asks guest number }
    ensures only { (w : Whole) (guest other number : ℕ) →
        (turn_of w (Guest guest)).answer ≡ Asks other number →
        (guest ≡ other) × IsOpening w guest number }
{}

/// Some world opens, a load may begin there, and in two lists of events each kind of turn comes, with each answer.
///
/// Guest 0 opens a module in vain and stops with Fuel; a refresh passes all tests and makes all stores; the next one is
/// refused for guest 1. Each of the seven cases in which nothing happens comes too. `last`: at the greatest epoch such
/// a world opens too, and no refresh and no load begins there.
pub fn some_world_turns()
    ensures opens { CanOpen MIN_CODE_WORDS MIN_VERSIONS 0 open_image open_guests 3 }
    ensures begins { MayTurn open_world (Begin (Some open_image)) }
    ensures may { MayTurns open_world open_events }
    ensures turns { turned_after open_world open_events ≡ open_answers }
    ensures last { CanOpen MIN_CODE_WORDS MIN_VERSIONS MAX_EPOCH open_image open_guests 3 }
    ensures last_may { MayTurns last_world last_events }
    ensures spent { turned_after last_world last_events ≡ last_answers }
{}

/// A check is tried again where an update comes between its two table loads, and then picks one policy.
///
/// A guest calls a function through a pointer, while a module with one more such function is loaded. `tries`: where the
/// second try begins, the guest keeps words of two epochs. `ends`: both of its checks have picked the later policy.
/// `once`: without the load it has one try, of two loads of its own.
pub fn a_check_is_tried_again()
    ensures opens { CanOpen MIN_CODE_WORDS MAX_VERSIONS 0 call_image call_guests 100 }
    ensures may { MayTurns (call_world MAX_VERSIONS) load_events }
    ensures tries { kept_after (call_world MAX_VERSIONS) retry_events ≡ tried_words ∷ [] }
    ensures ends { endings_after (call_world MAX_VERSIONS) load_events ≡ picked_ending 1 ∷ [] }
    ensures once { HasTry }
{}

/// A guest on the last word of its check, the jump to an edge that is allowed, to which nothing led it, is not placed.
pub fn nobody_is_put_on_a_jump()
    ensures { NobodyIsPutThere }
{}

/// A load goes through its phases one by one, and the policy in force changes at the one store of EPOCH.
pub fn a_load_goes_through_its_phases()
    ensures phases { phases_along (call_world MAX_VERSIONS) (loads load_count) ≡ load_phases }
    ensures forces { forces_along (call_world MAX_VERSIONS) (loads load_count) ≡ load_forces }
{}

/// With three versions an update to the next epoch is admitted, the one after it is refused for a guest that is in no
/// service, and comes after its next quiescent point.
pub fn a_refresh_waits_for_a_quiescent_point()
    ensures opens { CanOpen MIN_CODE_WORDS MIN_VERSIONS 0 call_image call_guests 100 }
    ensures may { MayTurns (call_world MIN_VERSIONS) refresh_events }
    ensures turns { turned_after (call_world MIN_VERSIONS) refresh_events ≡ refresh_answers }
    ensures ends { endings_after (call_world MIN_VERSIONS) refresh_events ≡ picked_ending 0 ∷ [] }
{}

/// A guest inside a service hinders no update, and goes on where it leaves.
///
/// With three versions one update is refused for the guest before it parks, and two are made while it is parked.
/// `found`: what it publishes where it leaves is what it has found in EPOCH, and the next update is refused for that.
pub fn a_parked_guest_hinders_no_update()
    ensures may { MayTurns (call_world MIN_VERSIONS) parked_events }
    ensures turns { turned_after (call_world MIN_VERSIONS) parked_events ≡ parked_answers }
    ensures ends { endings_after (call_world MIN_VERSIONS) parked_events ≡ picked_ending 0 ∷ [] }
    ensures found_may { MayTurns (call_world MIN_VERSIONS) found_events }
    ensures found { turned_after (call_world MIN_VERSIONS) found_events ≡ found_answers }
{}

/// Each turn of a world is one event on what its guests and its updater share, or changes nothing of it.
///
/// The events are those of the shared tables: a guest's load or store, a test or a store of the update.
pub fn turns_are_events()
    ensures { TurnsAreEvents }
{}
