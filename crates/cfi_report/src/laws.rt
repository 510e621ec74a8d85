//! Laws of reports and their texts.

ghost use Rattle.std.specs.Prelude.{◌≡◌, ℕ, List};
ghost use Rattle.cfi_report.specs.declared.report.Report.{Report};
ghost use Rattle.cfi_report.specs.Report.{IsReport, IsFirstFaultyLine, report_text};

/// Some value is a report that can be read.
pub fn some_value_is_a_report()
    ensures { (report : Report) × IsReport report }
{}

/// A text is the text of at most one report.
pub fn one_report()
    ensures { (one other : Report) → IsReport one → IsReport other →
        report_text one ≡ report_text other → one ≡ other }
{}

/// A text has at most one first faulty line.
pub fn one_first_fault()
    ensures { (text : List ℕ) (n m : ℕ) → IsFirstFaultyLine text n → IsFirstFaultyLine text m
        → n ≡ m }
{}
