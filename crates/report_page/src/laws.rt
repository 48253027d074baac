//! Laws of pages. Each function does nothing; its contract is the law.

ghost use Rattle.std.specs.Prelude.{◌≡◌, ◌≤◌, List, ℕ, length, false, codes};
ghost use Rattle.slot_text.specs.Lines.{lines_of};
ghost use Rattle.report_page.specs.Filled.{escaped};
ghost use Rattle.report_page.specs.Pages.{page_text};
ghost use Rattle.report_page.specs.Laws.{IsPlain, has, most_page};

/// Text that was escaped has no byte that begins or ends markup or a value in it, and is printed
/// ASCII.
pub fn plain_texts()
    ensures { (text : List ℕ) → IsPlain (escaped text) }
{}

/// No report has a page with a script, in small letters or capitals.
pub fn no_scripts()
    ensures small { (report : List ℕ) → has (codes "<sc") (page_text report) ≡ false }
    ensures capital { (report : List ℕ) → has (codes "<SC") (page_text report) ≡ false }
    ensures first { (report : List ℕ) → has (codes "<Sc") (page_text report) ≡ false }
    ensures second { (report : List ℕ) → has (codes "<sC") (page_text report) ≡ false }
{}

/// A page is at most so long: by the lines and words of its report, and by how many of the lines
/// declare a capacity.
pub fn bounded_pages()
    ensures { (report : List ℕ) → length (page_text report) ≤ most_page (lines_of report) }
{}
