//! Laws of the program's promises: that their premises can be met, and how those of two commands meet.

ghost use Rattle.std.specs.Prelude.{ℕ, List};
ghost use Rattle.cfi_io.specs.Files.{Files};
ghost use Rattle.cfi_valid.specs.Valid.{IsValidReport};
ghost use Rattle.cfi_top.specs.Reports.{AreJudgedValid, IsOfRun};
ghost use Rattle.cfi_top.specs.Top.{IsValid};

/// Some input is valid: the words `run a`, where the file `a` is a bare file that puts one `H` and exits.
pub fn some_input_is_valid()
    ensures { (words : List (List ℕ)) × (told : Files) × IsValid words told }
{}

/// To judge a valid report is valid input: the words `judge FILE REPORT`, where REPORT has the text of a report that is
/// valid for the plan and the modules of FILE, or for that bare file.
///
/// So `top` answers them by status 0, and thus by `valid`, or by 6, where no count rises.
pub fn valid_reports_are_judged_valid()
    ensures { AreJudgedValid IsValidReport }
{}

/// So is a report that `run` has printed: REPORT has the text of the report of a run of FILE.
pub fn runs_are_judged_valid()
    ensures { AreJudgedValid IsOfRun }
{}
