//! Answering amendments, one after the other, from the book of a certificate.

ghost use Rattle.std.specs.Prelude.{◌≡◌, ◌≤◌, ◌∷◌, [], IfOk, IfErr, length};
ghost use Rattle.std.specs.String.{string_bytes};
ghost use Rattle.desk_outside.specs.Files.{ChangesOnly};
ghost use Rattle.wasg_stages.specs.Valid.{IsValid};
ghost use Rattle.holding_book.specs.Starts.{start_book};
ghost use Rattle.command_words.specs.declared.job.Job.TheVariants.{Amend as AmendJob};
ghost use Rattle.desk_commands.specs.Jobs.{name_at};
ghost use Rattle.desk_commands.specs.Amendments.{AmendsLegally, entries_line};
ghost use Rattle.desk_commands.specs.Desk.{world_of};
ghost use Rattle.desk_commands.specs.Ends.{IsDone, JobStops};

use crate::files::{LONGEST_FILE, read_file};
use crate::season::read_proved;
use crate::stop::{Answer, Stop};
use crate::writes::write_one;
use amend_run::amend_messages;
use cert_format::Certificate;
use command_words::NameList;
use desk_outside::Cabinet;
use desk_outside::laws::file_changes;
use holding_book::Book;
use series_model::Submission;
use slot_text::Memory;
use std::alloc::Global;
use wasg_stages::laws::valid_choices;

/// What amendments give.
#[derive(Drop)]
struct AmendOutput {
    answers: Vec<u8>,
    text: String,
}

/// Reads a season, a certificate of it, which is valid, and asks; answers them, and writes the
/// answers. All memory is taken before the write.
pub(crate) fn amend<C: Cabinet>(
    alloc: Global,
    names: &NameList,
    cabinet: &mut C,
) -> Result<Answer, Stop>
    ensures done { IfOk result (λ a. IsDone (AmendJob names.now)
        (world_of C.files C.fault_count C.log cabinet.old) a.status a.text.items
        (world_of C.files C.fault_count C.log cabinet.new)) }
    ensures stop { IfErr result (λ stop. JobStops names.now (AmendJob names.now)
        (world_of C.files C.fault_count C.log cabinet.old) stop
        (world_of C.files C.fault_count C.log cabinet.new)) }
    ensures others { ChangesOnly (C.files cabinet.old) (name_at names.now 4 ∷ [])
        (C.files cabinet.new) }
{
    file_changes();
    let proved = read_proved(alloc, names, cabinet)?;
    let asks = read_file(alloc, names, 3, LONGEST_FILE, cabinet)?;
    let output = amend_output(alloc, &proved.submission, &proved.certificate, &asks)?;
    write_one(names, 4, &output.answers, cabinet)?;
    Ok(Answer {
        status: 0,
        text: output.text.into_bytes(),
    })
}

/// Answers asks from the book of a certificate, and gives what is written and said of it.
fn amend_output(
    alloc: Global,
    submission: &Submission,
    certificate: &Certificate,
    asks: &[u8],
) -> Result<AmendOutput, Memory>
    requires valid { IsValid submission.now certificate.now }
    requires short { length asks.now ≤ LONGEST_FILE }
    ensures { IfOk result (λ output. AmendsLegally (start_book submission.now certificate.now)
        asks.now output.answers.items (string_bytes output.text)) }
{
    valid_choices();
    let _units = submission.units();
    let book = Book::of(alloc, submission, certificate)?;
    let amended = amend_messages(alloc, book, asks)?;
    let text = entries_line(alloc, amended.history.len())?;
    Ok(AmendOutput {
        answers: amended.text,
        text,
    })
}

/// How many asks were answered.
fn entries_line(alloc: Global, count: usize) -> Result<String, Memory>
    ensures { IfOk result (λ text. string_bytes text ≡ entries_line count) }
{
    let text = format!(in alloc; "ENTRIES {count}\n")?;
    Ok(text)
}
