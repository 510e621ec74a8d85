//! That the premises of a guest's calls can be met.

ghost use Rattle.std.specs.Prelude.{◌≡◌, ℕ, ◌≤◌, [], List, Option};
ghost use Rattle.cfi_word.specs.declared.limits.TheConstants.{MAX_POLICY};
ghost use Rattle.cfi_model.specs.declared.act.Wait.{Wait};
ghost use Rattle.cfi_model.specs.Service.{Reply};
ghost use Rattle.cfi_model.specs.Raw.{Raw};
ghost use Rattle.rv_guest.specs.Guest.{MayAnswer, MayLoad};

/// Some guest may be answered, under each policy.
pub fn some_answer_may_come()
    ensures { (policy : ℕ) → policy ≤ MAX_POLICY →
        (r : Raw) × (reply : Reply) × (reply.policy ≡ policy) × MayAnswer reply r }
{}

/// Each word may come where nothing is logged.
pub fn each_word_may_come()
    ensures { (wait : Option Wait) (word : ℕ) → MayLoad wait [] word }
{}
