//! That the premises of the laws over machines can be met, and how runs of the raw machine compose.

ghost use Rattle.std.specs.Prelude.{◌≡◌, ℕ, ◌≤◌, ◌++◌, [], List};
ghost use Rattle.cfi_word.specs.declared.limits.TheConstants.{MAX_POLICY};
ghost use Rattle.cfi_word.specs.declared.lists.Image.{Image};
ghost use Rattle.cfi_word.specs.Table.{IsSize};
ghost use Rattle.cfi_model.specs.Closed.{IsClosed};
ghost use Rattle.cfi_model.specs.Plain.{CanRun, CanEnd, PlainState, plain_opened};
ghost use Rattle.cfi_model.specs.Raw.{Raw};
ghost use Rattle.cfi_model.specs.Run.{Take, run_of};
ghost use Rattle.cfi_model.specs.Service.{Reply};

/// Some image is closed, for each size of a table: its code is the one word `j .`, and no address has a class.
pub fn some_image_is_closed()
    ensures { (code_words : ℕ) → IsSize code_words → (image : Image) × IsClosed code_words image }
{}

/// A machine at its start can run some unit, under each policy.
pub fn some_unit_can_run()
    ensures { (policy : ℕ) → policy ≤ MAX_POLICY →
        (code : List ℕ) × CanRun code policy (plain_opened 0 0 []) }
{}

/// Some machine may be answered, under each policy.
pub fn some_open_can_end()
    ensures { (policy : ℕ) → policy ≤ MAX_POLICY →
        (reply : Reply) × (reply.policy ≡ policy) × (m : PlainState) × CanEnd reply m }
{}

/// The raw machine over two lists of accesses, one after the other, is where it is over both.
pub fn runs_compose()
    ensures { (r : Raw) (before after : List Take) →
        run_of r (before ++ after) ≡ run_of (run_of r before) after }
{}
