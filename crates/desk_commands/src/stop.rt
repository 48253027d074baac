//! Why a run ends before its work is done, and what is printed of it.

ghost use Rattle.std.specs.Prelude.{◌≡◌, ◌∷◌, [], ◌++◌, IfOk, ℕ, List, codes, Some};
ghost use Rattle.std.specs.Fmt.{decimal};
ghost use Rattle.std.specs.String.{string_bytes};
ghost use Rattle.desk_commands.specs.Reports.{Report, status_of, text_of, reason_text};
ghost use Rattle.desk_commands.specs.Reports.{cabinet_line, numbered_line, cause_line};
ghost use Rattle.command_words.specs.Words.{Word};
ghost use Rattle.desk_commands.specs.Jobs.{name_at};
ghost use Rattle.desk_commands.specs.Reports.{journal_status, journal_text};
ghost use Rattle.desk_commands.specs.Stops.{limit_text, report_of, journal_refusal};

use capacity_file::CapLimit;
use cert_checker::Reason;
use command_words::NameList;
use fault_causes::Cause;
use slot_text::Memory;
use std::alloc::Global;

/// A limit that a season's files may pass.
#[derive(Clone, Copy)]
pub enum Limit {
    /// A limit of the declaration.
    Capacity(CapLimit),
    /// The number of units.
    Units,
    /// The number of lines that wait.
    Waiting,
}

/// Why a journal was not opened.
#[derive(Clone, Copy)]
pub enum NoJournal {
    /// There is no disk.
    Missing,
    /// The file begins as no journal does.
    Other,
    /// The slot of this number is not whole, or spells nothing in the season.
    Slot(u32),
    /// A call of the disk failed.
    Fault,
}

/// Why a job stopped. A file is given by the place of its name among the names of the job, from 0.
#[derive(Clone, Copy)]
pub enum Stop {
    /// The file is not there.
    Missing(usize),
    /// The file has more bytes than are read.
    Large(usize),
    /// The read failed.
    Unread(usize),
    /// The write failed.
    Unwritten(usize),
    /// The first line of the file that is not in its form.
    OutOfForm(usize, u32),
    /// The limit is passed, by this number.
    OverLimit(Limit, u64),
    /// The first line of the certificate that fails, and why.
    NotValid(u32, Reason),
    /// The journal was not opened.
    Unopened(NoJournal),
    /// No season follows for which lines could be written.
    NoNext,
    /// The first line of one more stage that fails, and why.
    ExtraFails(u32, Reason),
    /// The first line of the file that is not in its form, and why.
    BadForm(usize, u32, Cause),
    /// The limit is passed, by this number, and which it is.
    PastLimit(Limit, u64, Cause),
    /// Memory ran out.
    Memory,
}

impl From<Memory> for Stop {
    ghost use Rattle.desk_commands.specs.declared.stop.Stop.{Stop};

    ghost from_gives = { λ _ stop. stop ≡ Stop.Memory };

    fn from(_error: Memory) -> Stop {
        Stop::Memory
    }
}

/// A status, and the text that goes with it.
#[derive(Drop)]
pub struct Answer {
    /// The status of the program.
    pub status: u8,
    /// The bytes of the text.
    pub text: Vec<u8>,
}

/// The name of a file of a job, as the words give it.
pub(crate) fn name_at(names: &NameList, place: usize) -> &str
    ensures { result.now ≡ name_at names.now place }
{
    match names.items().get(place) {
        Some(name) => name.text(),
        None => "",
    }
}

impl Stop {
    /// What is said of it; want of memory is not said.
    pub(crate) fn answer(&self, alloc: Global, names: &NameList) -> Result<Answer, Memory>
        ensures { IfOk result (λ a. (report : Report) × (report_of names.now self.now ≡ Some report)
            × (a.status ≡ status_of report) × (a.text.items ≡ text_of report)) }
    {
        let text = self.text(alloc, names)?;
        Ok(Answer {
            status: self.status(),
            text: text.into_bytes(),
        })
    }

    /// The status of the program.
    fn status(&self) -> u8
        ensures { (names : List Word) (report : Report) → report_of names self.now ≡ Some report
            → result ≡ status_of report }
    {
        match self {
            Stop::OutOfForm(_, _) | Stop::BadForm(_, _, _) => 3,
            Stop::OverLimit(_, _) | Stop::PastLimit(_, _, _) => 4,
            Stop::NotValid(_, _) => 1,
            Stop::ExtraFails(_, _) => 1,
            Stop::Unopened(why) => unopened_status(*why),
            Stop::NoNext => 15,
            Stop::Memory => 7,
            _ => 5,
        }
    }

    /// The line that is printed.
    fn text(&self, alloc: Global, names: &NameList) -> Result<String, Memory>
        ensures { IfOk result (λ text. (report : Report)
            × (report_of names.now self.now ≡ Some report)
            × (string_bytes text ≡ text_of report)) }
    {
        match *self {
            Stop::Missing(place) => Ok(cabinet_line(alloc, name_at(names, place), "MISSING")?),
            Stop::Large(place) => Ok(cabinet_line(alloc, name_at(names, place), "LARGE")?),
            Stop::Unread(place) => Ok(cabinet_line(alloc, name_at(names, place), "READ")?),
            Stop::Unwritten(place) => Ok(cabinet_line(alloc, name_at(names, place), "WRITE")?),
            Stop::OutOfForm(place, line) => {
                let name = name_at(names, place);
                Ok(numbered_line(alloc, "FORM", name, u64::from(line))?)
            }
            Stop::OverLimit(limit, number) => {
                Ok(numbered_line(alloc, "LIMIT", limit_name(limit), number)?)
            }
            Stop::NotValid(line, reason) => Ok(verdict_line(alloc, line, reason_name(reason))?),
            Stop::Unopened(why) => Ok(journal_line(alloc, why)?),
            Stop::NoNext => Ok(String::from_str(alloc, "NEXT NONE\n")?),
            Stop::ExtraFails(line, reason) => Ok(extra_line(alloc, line, reason_name(reason))?),
            Stop::BadForm(place, line, cause) => {
                let name = name_at(names, place);
                Ok(caused_lines(alloc, "FORM", name, u64::from(line), cause)?)
            }
            Stop::PastLimit(limit, number, cause) => {
                Ok(caused_lines(alloc, "LIMIT", limit_name(limit), number, cause)?)
            }
            Stop::Memory => Err(Memory),
        }
    }
}

fn unopened_status(why: NoJournal) -> u8
    ensures { result ≡ journal_status (journal_refusal why) }
{
    match why {
        NoJournal::Fault => 14,
        _ => 13,
    }
}

fn limit_name(limit: Limit) -> &'static str
    ensures { result.now ≡ limit_text limit }
{
    match limit {
        Limit::Capacity(CapLimit::Flex) => "FLEX",
        Limit::Capacity(CapLimit::Caps) => "CAPS",
        Limit::Capacity(CapLimit::Windows) => "WINDOWS",
        Limit::Units => "UNITS",
        Limit::Waiting => "WAITING",
    }
}

fn reason_name(reason: Reason) -> &'static str
    ensures { result.now ≡ reason_text reason }
{
    match reason {
        Reason::Mark => "MARK",
        Reason::Units => "UNITS",
        Reason::Choice => "CHOICE",
        Reason::Cost => "COST",
        Reason::Fit => "FIT",
        Reason::Bound => "BOUND",
        Reason::Price => "PRICE",
        Reason::Fixing => "FIXING",
        Reason::Shape => "SHAPE",
        Reason::Closed => "CLOSED",
        Reason::Split => "SPLIT",
        Reason::Leaf => "LEAF",
        Reason::Over => "OVER",
        Reason::Undone => "UNDONE",
        Reason::Floor => "FLOOR",
    }
}

fn cabinet_line(alloc: Global, name: &str, what: &str) -> Result<String, Memory>
    ensures { IfOk result (λ text. string_bytes text ≡ cabinet_line name.now what.now) }
{
    let text = format!(in alloc; "CABINET {name} {what}\n")?;
    Ok(text)
}

fn numbered_line(alloc: Global, first: &str, name: &str, number: u64) -> Result<String, Memory>
    ensures { IfOk result (λ text. string_bytes text ≡ numbered_line first.now name.now number) }
{
    let text = format!(in alloc; "{first} {name} {number}\n")?;
    Ok(text)
}

fn caused_lines(
    alloc: Global,
    first: &str,
    name: &str,
    number: u64,
    cause: Cause,
) -> Result<String, Memory>
    ensures { IfOk result (λ text. string_bytes text
        ≡ numbered_line first.now name.now number ++ cause_line cause) }
{
    let text = format!(in alloc; "{first} {name} {number}\n{cause}\n")?;
    Ok(text)
}

fn verdict_line(alloc: Global, line: u32, reason: &str) -> Result<String, Memory>
    ensures { IfOk result (λ text. string_bytes text
        ≡ codes "NO " ++ (decimal line ++ (32 ∷ (reason.now ++ (10 ∷ []))))) }
{
    let text = format!(in alloc; "NO {line} {reason}\n")?;
    Ok(text)
}

fn extra_line(alloc: Global, line: u32, reason: &str) -> Result<String, Memory>
    ensures { IfOk result (λ text. string_bytes text
        ≡ codes "NO EXTRA " ++ (decimal line ++ (32 ∷ (reason.now ++ (10 ∷ []))))) }
{
    let text = format!(in alloc; "NO EXTRA {line} {reason}\n")?;
    Ok(text)
}

fn journal_line(alloc: Global, why: NoJournal) -> Result<String, Memory>
    ensures { IfOk result (λ text. string_bytes text ≡ journal_text (journal_refusal why)) }
{
    let text = match why {
        NoJournal::Missing => String::from_str(alloc, "JOURNAL NONE\n")?,
        NoJournal::Other => String::from_str(alloc, "JOURNAL OTHER\n")?,
        NoJournal::Slot(number) => format!(in alloc; "JOURNAL SLOT {number}\n")?,
        NoJournal::Fault => String::from_str(alloc, "JOURNAL FAULT\n")?,
    };
    Ok(text)
}
