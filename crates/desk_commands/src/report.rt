//! The report on a certificate: why each series was given what it was given.

ghost use Rattle.std.specs.Prelude.{◌≡◌, ◌∷◌, [], IfOk, IfErr};
ghost use Rattle.desk_outside.specs.Files.{ChangesOnly};
ghost use Rattle.wasg_stages.specs.Valid.{IsValid};
ghost use Rattle.command_words.specs.declared.job.Job.TheVariants.{Report as ReportJob};
ghost use Rattle.desk_commands.specs.Jobs.{name_at};
ghost use Rattle.desk_commands.specs.Desk.{world_of};
ghost use Rattle.desk_commands.specs.Ends.{IsDone, JobStops};
ghost use Rattle.desk_commands.specs.Reasons.{IsReported};

use crate::season::read_proved;
use crate::stop::{Answer, Stop};
use crate::writes::write_two;
use cert_format::Certificate;
use command_words::NameList;
use desk_outside::Cabinet;
use desk_outside::laws::file_changes;
use report_page::page_text;
use season_report::{report_text, season_tally};
use series_model::Submission;
use slot_text::Memory;
use std::alloc::Global;

/// What a report gives.
#[derive(Drop)]
struct ReportOutput {
    report: Vec<u8>,
    page: Vec<u8>,
    text: Vec<u8>,
}

/// Reads a season and a certificate of it, which is valid, and writes the report on it and then the
/// page of that report. All memory is taken before the first write.
pub(crate) fn report<C: Cabinet>(
    alloc: Global,
    names: &NameList,
    cabinet: &mut C,
) -> Result<Answer, Stop>
    ensures done { IfOk result (λ a. IsDone (ReportJob names.now)
        (world_of C.files C.fault_count C.log cabinet.old) a.status a.text.items
        (world_of C.files C.fault_count C.log cabinet.new)) }
    ensures stop { IfErr result (λ stop. JobStops names.now (ReportJob names.now)
        (world_of C.files C.fault_count C.log cabinet.old) stop
        (world_of C.files C.fault_count C.log cabinet.new)) }
    ensures others { ChangesOnly (C.files cabinet.old)
        (name_at names.now 3 ∷ name_at names.now 4 ∷ []) (C.files cabinet.new) }
{
    file_changes();
    let proved = read_proved(alloc, names, cabinet)?;
    let output = report_output(alloc, &proved.submission, &proved.certificate)?;
    write_two(names, 3, &output.report, &output.page, cabinet)?;
    Ok(Answer {
        status: 0,
        text: output.text,
    })
}

/// What is written and said of a certificate.
fn report_output(
    alloc: Global,
    submission: &Submission,
    certificate: &Certificate,
) -> Result<ReportOutput, Memory>
    requires { IsValid submission.now certificate.now }
    ensures { IfOk result (λ output. IsReported submission.now certificate.now
        output.report.items output.page.items output.text.items) }
{
    let text = season_tally(alloc, submission, certificate)?;
    let report = report_text(alloc, submission, certificate)?;
    let page = page_text(alloc, &report)?;
    Ok(ReportOutput { report, page, text })
}
