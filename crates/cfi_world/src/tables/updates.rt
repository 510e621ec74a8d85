// The steps of an update.

ghost use Rattle.std.specs.Prelude.{◌≡◌, ◌≢◌, ◌+◌, ◌≤◌, ◌<◌, ◌++◌, ◌∷◌, [], None, length, vec_len, vec_capacity};
ghost use Rattle.cfi_model.specs.declared.phase.Phase.TheVariants.{Idle};
ghost use Rattle.cfi_model.specs.Phases.{phase_of};
ghost use Rattle.cfi_word.specs.Rank.{stores_of};
ghost use Rattle.cfi_word.specs.declared.limits.TheConstants.{MAX_EPOCH, MAX_POLICY};
ghost use Rattle.cfi_model.specs.Words.{next_epoch};
ghost use Rattle.cfi_world.specs.Premises.{MayBegin};
ghost use Rattle.cfi_world.specs.Updates.{begun, dropped, next_store, passed_by, stored};
ghost use Rattle.cfi_world.specs.inner.Entries.{HaveImages, FitsNext, entries_by, update_by};

use crate::stores::parting;
use crate::tables::Tables;
use cfi_word::Image;
use cfi_word::limits::GUESTS;

// Adds the entry of an update; a refresh has no image.
#[tactic(auto, using(crate::proofs::EntryLemmas::kept_refresh, crate::proofs::EntryLemmas::kept_load, crate::proofs::EntryLemmas::entries_refresh, crate::proofs::EntryLemmas::entries_load,))]
fn add(images: &mut Vec<Image>, policies: &mut Vec<u32>, image: Option<Image>)
    requires kept { HaveImages images.old.items policies.old.items }
    requires next { FitsNext policies.old.items image }
    requires image_room { MAX_POLICY + 1 ≤ vec_capacity images.old }
    requires entry_room { vec_len policies.old < vec_capacity policies.old }
    ensures kept { HaveImages images.new.items policies.new.items }
    ensures images { vec_capacity images.new ≡ vec_capacity images.old }
    ensures policies { vec_capacity policies.new ≡ vec_capacity policies.old }
    ensures entries { entries_by images.new.items policies.new.items ≡
        entries_by images.old.items policies.old.items
        ++ update_by images.old.items policies.old.items image ∷ [] }
{
    let policy = policies[policies.len() - 1];
    match image {
        Some(image) => {
            images.push_reserved(image);
            policies.push_reserved(policy + 1);
        }
        None => policies.push_reserved(policy),
    }
}

impl Tables {
    /// Begins an update, while none is under way.
    pub fn begin(&mut self, image: Option<Image>)
        requires idle { phase_of self.old.tables ≡ Idle }
        requires fits { next_epoch self.old.tables ≤ MAX_EPOCH }
        requires may { MayBegin self.old.tables image }
        ensures { self.new ≡ record self.old { tables = begun image self.old.tables } }
    {
        self.asked = Some(image);
        self.tested = 0;
    }

    /// Ends the test: the update is not admitted.
    pub fn refuse(&mut self)
        ensures { self.new ≡ record self.old { tables = dropped self.old.tables } }
    {
        self.asked = None;
        self.tested = 0;
    }

    /// A QUIET word has passed the test.
    pub fn pass(&mut self)
        requires { length self.old.tables.entries ≤ self.old.room }
        ensures { self.new ≡ record self.old {
          tables = passed_by self.old.tables.asked self.old.tables;
        } }
    {
        if self.asked.is_none() {
            return;
        }
        if self.tested + 1 < GUESTS {
            self.tested += 1;
            return;
        }
        if let Some(image) = self.asked.take() {
            add(&mut self.images, &mut self.policies, image);
            self.tested = 0;
            self.stored = 0;
            self.stored = self.next_store(0);
        }
    }

    // The first store that is needed from this one on.
    fn next_store(&self, from: u32) -> u32
        requires { from ≤ stores_of self.now.tables.code_words }
        ensures { result ≡ next_store self.now.tables from }
    {
        let old = self.code_of(self.policies.len().saturating_sub(2));
        let new = self.code_of(self.policies.len() - 1);
        parting(old, new, from as usize) as u32
    }

    /// A store was made.
    pub fn store(&mut self)
        requires none { self.old.tables.asked ≡ None }
        requires more { self.old.tables.stored < stores_of self.old.tables.code_words }
        ensures { self.new ≡ record self.old { tables = stored self.old.tables } }
    {
        self.stored = self.next_store(self.stored + 1);
    }
}
