//! What valid reports refuse: two worked reports, changed in one thing, are valid only where that is as it was.

ghost use Rattle.std.specs.Prelude.{◌≡◌, ◌+◌, ◌*◌, ℕ, List, [], ◌∷◌, codes, Option, Some};
ghost use Rattle.cfi_plan.specs.declared.journal.Who.{Who};
ghost use Rattle.cfi_plan.specs.declared.journal.Who.TheVariants.{Guest};
ghost use Rattle.cfi_plan.specs.declared.plan.ScriptLine.TheVariants as script;
ghost use Rattle.cfi_unit.specs.declared.log.Log.TheVariants.{Pick, Open, Cause};
ghost use Rattle.cfi_unit.specs.declared.log.Stop.{Stop};
ghost use Rattle.cfi_unit.specs.declared.log.Stop.TheVariants.{Exit};
ghost use Rattle.cfi_valid.specs.declared.causes.TheConstants.{VERSIONS_SPENT};
ghost use Rattle.cfi_valid.specs.Example.{hello_line};
ghost use Rattle.cfi_valid.specs.Lies.{hello, hello_guest, hello_by, hello_with, IsHello};
ghost use Rattle.cfi_valid.specs.Lies.{opening, opening_by, opening_logged, opening_at};
ghost use Rattle.cfi_valid.specs.Lies.{opening_alone, opening_asked, scripted, IsOpening};
ghost use Rattle.cfi_valid.specs.LoadExample.{load_plan, load_part};
ghost use Rattle.cfi_word.specs.declared.map.TheConstants.{FIRST_BASE};
ghost use Rattle.cfi_word.specs.declared.sizes.TheConstants.{RETRY_STEPS};

/// Of the file that puts one `H`: the modules, the journal and the guests of its report.
pub fn hello_has_one_run()
    ensures base { (n : ℕ) →
        IsHello (hello_with (record hello_line { base = n })) → n ≡ FIRST_BASE }
    ensures modules { ¬ IsHello (record hello { modules = [] }) }
    ensures epoch { (n : ℕ) → IsHello (record hello { epoch = n }) → n ≡ 0 }
    ensures policy { (n : ℕ) → IsHello (record hello { policy = n }) → n ≡ 0 }
    ensures guests { ¬ IsHello (record hello { guests = [] }) }
{}

/// What its guest's part says: the guest repeated no try, so one step more or less is refused too.
pub fn hello_has_one_guest()
    ensures number { (n : ℕ) → IsHello (hello_by (record hello_guest { number = n })) → n ≡ 0 }
    ensures entry { (name : List ℕ) →
        IsHello (hello_by (record hello_guest { entry = name })) → name ≡ codes "bare" }
    ensures stop { (stop : Option Stop) →
        IsHello (hello_by (record hello_guest { stop = stop })) → stop ≡ Some (Exit 7) }
    ensures units { (n : ℕ) → IsHello (hello_by (record hello_guest { units = n })) → n ≡ 6 }
    ensures steps { (n : ℕ) → IsHello (hello_by (record hello_guest { steps = n })) → n ≡ 6 }
{}

/// Of the run in which a guest opens a module: the modules and the journal of its report, the script.
pub fn opening_has_one_run()
    ensures base { (n : ℕ) → IsOpening load_plan (opening_at n) → n ≡ 36 }
    ensures modules { ¬ IsOpening load_plan opening_alone }
    ensures epoch { (n : ℕ) → IsOpening load_plan (record opening { epoch = n }) → n ≡ 1 }
    ensures policy { (n : ℕ) → IsOpening load_plan (record opening { policy = n }) → n ≡ 1 }
    ensures journal { ¬ IsOpening load_plan (record opening { journal = [] }) }
    ensures who { (who : Who) → IsOpening load_plan (opening_asked who) → who ≡ Guest 0 }
    // a call of the script without its line
    ensures load { (n : ℕ) → ¬ IsOpening (scripted (script.Load n)) opening }
    ensures refresh { (n : ℕ) → IsOpening (scripted (script.Refresh n)) opening → n ≡ 0 }
{}

/// What its guest's part says: units and steps; only a repeated try adds steps, nine at a time.
pub fn opening_has_one_guest()
    ensures entry { (name : List ℕ) →
        IsOpening load_plan (opening_by (record load_part { entry = name })) → name ≡ codes "main" }
    ensures stop { (stop : Option Stop) →
        IsOpening load_plan (opening_by (record load_part { stop = stop })) →
        stop ≡ Some (Exit 144) }
    ensures units { (n : ℕ) →
        IsOpening load_plan (opening_by (record load_part { units = n })) → n ≡ 7 }
    ensures steps { (n : ℕ) →
        IsOpening load_plan (opening_by (record load_part { steps = n })) →
        (repeats : ℕ) × (n ≡ 25 + RETRY_STEPS * repeats) }
{}

/// What its guest's log says: the address of what it opened, the policy of its picks, which is the one in force,
/// and no refusal for versions of which the journal has no line.
pub fn opening_has_one_log()
    ensures address { (n : ℕ) →
        IsOpening load_plan (opening_logged (Open 1 n 1 ∷ Pick 1 2 ∷ [])) → n ≡ 144 }
    ensures pick { (n : ℕ) →
        IsOpening load_plan (opening_logged (Open 1 144 1 ∷ Pick n 2 ∷ [])) → n ≡ 1 }
    ensures cause { ¬ IsOpening load_plan
        (opening_logged (Cause 1 VERSIONS_SPENT ∷ Open 1 144 1 ∷ Pick 1 2 ∷ [])) }
{}
