//! Allotting a season.

ghost use Rattle.std.specs.Prelude.{◌≡◌, ◌≤◌, ◌∷◌, [], IfOk, IfErr};
ghost use Rattle.desk_outside.specs.Files.{ChangesOnly};
ghost use Rattle.command_words.specs.declared.job.Job.TheVariants.{Allocate as AllocateJob};
ghost use Rattle.desk_commands.specs.Jobs.{name_at, IsRunOutput};
ghost use Rattle.desk_commands.specs.Desk.{world_of};
ghost use Rattle.desk_commands.specs.Ends.{IsDone, JobStops};

use crate::season::read_season;
use crate::stage_lines::{mark_lines, marks_status};
use crate::stop::{Answer, Stop};
use crate::writes::write_two;
use cert_format::{print_cert, season_bytes};
use command_words::NameList;
use desk_outside::Cabinet;
use desk_outside::laws::file_changes;
use scr_replies::season_replies;
use season_run::{run_season, settled_run};
use series_model::Submission;
use slot_text::Memory;
use std::alloc::Global;
use std::thread::Threads;
use worker_gate::Gate;

/// What the run of a season gives.
#[derive(Drop)]
struct RunOutput {
    certificate: Vec<u8>,
    replies: Vec<u8>,
    answer: Answer,
}

/// Reads a season, runs it, and writes the certificate and then the replies. All memory is taken
/// before the first write.
pub(crate) fn allocate<R: Threads + Sync, C: Cabinet, G: Gate>(
    rt: &R,
    alloc: Global,
    names: &NameList,
    nodes: u32,
    workers: u32,
    cabinet: &mut C,
    gate: &G,
) -> Result<Answer, Stop>
    requires nodes { (1 ≤ nodes) × (nodes ≤ 1000000) }
    requires workers { (1 ≤ workers) × (workers ≤ 16) }
    ensures done { IfOk result (λ a. IsDone (AllocateJob names.now nodes workers)
        (world_of C.files C.fault_count C.log cabinet.old) a.status a.text.items
        (world_of C.files C.fault_count C.log cabinet.new)) }
    ensures stop { IfErr result (λ stop. JobStops names.now (AllocateJob names.now nodes workers)
        (world_of C.files C.fault_count C.log cabinet.old) stop
        (world_of C.files C.fault_count C.log cabinet.new)) }
    ensures others { ChangesOnly (C.files cabinet.old)
        (name_at names.now 2 ∷ name_at names.now 3 ∷ []) (C.files cabinet.new) }
{
    file_changes();
    let submission = read_season(alloc, names, cabinet)?;
    let output = run_output(rt, alloc, &submission, nodes, workers, gate)?;
    write_two(names, 2, &output.certificate, &output.replies, cabinet)?;
    Ok(output.answer)
}

/// Runs a season, and gives what is written and said of it.
fn run_output<R: Threads + Sync, G: Gate>(
    rt: &R,
    alloc: Global,
    submission: &Submission,
    nodes: u32,
    workers: u32,
    gate: &G,
) -> Result<RunOutput, Memory>
    requires nodes { (1 ≤ nodes) × (nodes ≤ 1000000) }
    requires workers { (1 ≤ workers) × (workers ≤ 16) }
    ensures { IfOk result (λ output. IsRunOutput submission.now nodes output.certificate.items
        output.replies.items output.answer.status output.answer.text.items) }
{
    settled_run();
    season_bytes();
    let proved = run_season(rt, alloc, submission, nodes, workers, gate)?;
    let text = mark_lines(alloc, proved.stages.items())?;
    let replies = season_replies(alloc, submission, &proved)?;
    let certificate = print_cert(alloc, &proved)?;
    let status = marks_status(proved.stages.items());
    Ok(RunOutput {
        certificate,
        replies,
        answer: Answer {
            status,
            text: text.into_bytes(),
        },
    })
}
