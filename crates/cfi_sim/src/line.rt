//! The lines of a schedule.

ghost use Rattle.std.specs.Prelude.{◌≡◌, ◌<◌, ◌≤◌, length, Some, IfSome};
ghost use Rattle.cfi_plan.specs.Draft.{module_of};
ghost use Rattle.cfi_text.specs.Words.{words_in};
ghost use Rattle.cfi_word.specs.declared.limits.TheConstants.{MAX_MODULES};
ghost use Rattle.cfi_plan.specs.declared.plan.Plan.{Plan as PlanValue};
ghost use Rattle.cfi_sim.specs.Line.{IsKnown, Says, guest_in, count_in};
ghost use Rattle.cfi_sim.specs.declared.line.Line.{Line as LineValue};
ghost use Rattle.cfi_sim.specs.inner.Forms.{schedule_form, alone_form, two_words_form, guest_form, updates_form};

use cfi_plan::{Plan, PlanModule};
use cfi_text::{next_word, read_small_dec};

/// A line of a schedule.
#[derive(Clone, Copy, Debug, PartialEq, Eq)]
pub enum Line {
    /// It has no word.
    Blank,
    /// So many events of a guest.
    Guest {
        /// The guest's number.
        guest: u32,
        /// How many events, at least 1.
        count: u32,
    },
    /// The load of the module of this number.
    Load(u32),
    /// A refresh.
    Refresh,
    /// So many events of the updater, at least 1.
    Update(u32),
    /// Events of the updater until no update is under way.
    UpdateAll,
    /// The release of the guest of this number.
    Release(u32),
}

/// The line that the statement says. `None` where it says none, or names a guest or a module that the plan lacks.
///
/// It is for a plan within the limits.
pub fn read_line(plan: &Plan, statement: &[u8]) -> Option<Line>
    requires { length plan.now.modules ≤ MAX_MODULES }
    ensures some { IfSome result (Says plan.now (words_in statement.now)) }
    ensures only { (line : LineValue) → Says plan.now (words_in statement.now) line →
        result ≡ Some line }
    ensures known { IfSome result (IsKnown plan.now) }
{
    line_in(plan, statement)
}

// The line that the statement says, by the number of its words.
fn line_in(plan: &Plan, statement: &[u8]) -> Option<Line>
    requires { length plan.now.modules ≤ MAX_MODULES }
    ensures line { result ≡ schedule_form plan.now (words_in statement.now) }
    ensures known { IfSome result (IsKnown plan.now) }
{
    let Some((keyword, rest)) = next_word(statement) else {
        return Some(Line::Blank);
    };
    let Some((first, rest)) = next_word(rest) else {
        return alone(keyword);
    };
    let Some((second, rest)) = next_word(rest) else {
        return two_words(plan, keyword, first);
    };
    if next_word(rest).is_some() || keyword != b"guest".as_slice() {
        return None;
    }
    guest(plan, first, second)
}

#[tactic(auto, unfolding(crate::specs::inner::Forms::alone_form))]
fn alone(keyword: &[u8]) -> Option<Line>
    ensures line { result ≡ alone_form keyword.now }
    ensures known { IfSome result (λ line. (plan : PlanValue) → IsKnown plan line) }
{
    if keyword == b"refresh".as_slice() {
        return Some(Line::Refresh);
    }
    if keyword == b"update".as_slice() {
        return Some(Line::Update(1));
    }
    None
}

#[tactic(auto, unfolding(crate::specs::inner::Forms::two_words_form))]
fn two_words(plan: &Plan, keyword: &[u8], word: &[u8]) -> Option<Line>
    requires { length plan.now.modules ≤ MAX_MODULES }
    ensures line { result ≡ two_words_form plan.now keyword.now word.now }
    ensures known { IfSome result (IsKnown plan.now) }
{
    if keyword == b"guest".as_slice() {
        return guest_of(plan, word).map(|guest| Line::Guest { guest, count: 1 });
    }
    if keyword == b"load".as_slice() {
        return module_of(plan, word).map(Line::Load);
    }
    if keyword == b"release".as_slice() {
        return guest_of(plan, word).map(Line::Release);
    }
    if keyword == b"update".as_slice() {
        return updates(word);
    }
    None
}

#[tactic(auto, unfolding(crate::specs::inner::Forms::updates_form))]
fn updates(word: &[u8]) -> Option<Line>
    ensures line { result ≡ updates_form word.now }
    ensures known { IfSome result (λ line. (plan : PlanValue) → IsKnown plan line) }
{
    if word == b"all".as_slice() {
        return Some(Line::UpdateAll);
    }
    count_of(word).map(Line::Update)
}

// So many events of a guest.
fn guest(plan: &Plan, number: &[u8], count: &[u8]) -> Option<Line>
    ensures line { result ≡ guest_form plan.now number.now count.now }
    ensures known { IfSome result (IsKnown plan.now) }
{
    let guest = guest_of(plan, number)?;
    let count = count_of(count)?;
    Some(Line::Guest { guest, count })
}

// The number of a guest of the plan.
fn guest_of(plan: &Plan, word: &[u8]) -> Option<u32>
    ensures { result ≡ guest_in plan.now word.now }
{
    let number = read_small_dec(word)?;
    if (number as usize) < plan.guests.len() {
        Some(number)
    } else {
        None
    }
}

// A number of events.
fn count_of(word: &[u8]) -> Option<u32>
    ensures { result ≡ count_in word.now }
{
    let number = read_small_dec(word)?;
    if number == 0 { None } else { Some(number) }
}

// The number of the plan's module of this name.
fn module_of(plan: &Plan, name: &[u8]) -> Option<u32>
    requires { length plan.now.modules ≤ MAX_MODULES }
    ensures number { result ≡ module_of plan.now.modules name.now }
    ensures within { IfSome result (λ number. number < length plan.now.modules) }
{
    match place_of(plan.modules.as_slice(), name) {
        Some(place) => Some(place as u32),
        None => None,
    }
}

// The place of the first module of this name.
fn place_of(modules: &[PlanModule], name: &[u8]) -> Option<usize>
    ensures place { result ≡ module_of modules.now name.now }
    ensures within { IfSome result (λ place. place < length modules.now) }
{
    modules
        .iter()
        .position(|one| one.name.as_str().as_bytes() == name)
}
