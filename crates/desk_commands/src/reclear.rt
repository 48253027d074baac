//! Clearing the waiting list: what asks leave unmet, as one more stage.

ghost use Rattle.std.specs.Prelude.{◌≡◌, ◌≤◌, ◌∷◌, [], All, Some, IfOk, IfErr, IfSome, length};
ghost use Rattle.std.specs.String.{string_bytes};
ghost use Rattle.desk_outside.specs.Files.{ChangesOnly};
ghost use Rattle.scr_reader.specs.Printed.{LineFits};
ghost use Rattle.cert_format.specs.declared.cert.Mark.TheVariants.{Infeasible, Unsettled};
ghost use Rattle.scr_replies.specs.SeasonReplies.{IsAnswerable};
ghost use Rattle.wait_list.specs.Waiting.{allotted_states};
ghost use Rattle.command_words.specs.declared.job.Job.TheVariants.{Reclear as ReclearJob};
ghost use Rattle.desk_commands.specs.Judgements.{NamedBytes};
ghost use Rattle.desk_commands.specs.Jobs.{name_at, reclear_steps, two_files, IsReclearing};
ghost use Rattle.desk_commands.specs.Leads.{Leads};
ghost use Rattle.desk_commands.specs.Desk.{world_of};
ghost use Rattle.desk_commands.specs.Ends.{IsDone, JobStops};
ghost use Rattle.desk_commands.specs.Reclearing.{waiting_replies, waiting_text, IsWaitingOutput};
ghost use Rattle.desk_commands.specs.StageLines.{marks_status};

use crate::stage_lines::mark_line;
use crate::stop::{Answer, Stop};
use crate::waits::{Left, read_waiting};
use crate::writes::write_two;
use cert_format::{Mark, StageCert, print_extra};
use command_words::NameList;
use desk_outside::Cabinet;
use desk_outside::laws::file_changes;
use scr_reader::Header;
use scr_replies::units_reply;
use series_model::UnitState;
use series_model::laws::{option_bounds, spelled_alternatives};
use slot_text::Memory;
use std::alloc::Global;
use std::thread::Threads;
use wait_list::laws::{all_may_be_refused, extra_bytes};
use wait_list::{Waiting, allotted_states, reclear as reclear_stage, waiting_problem};
use worker_gate::Gate;

/// What the search of a waiting list gives.
#[derive(Drop)]
struct ReclearOutput {
    extra: Vec<u8>,
    replies: Vec<u8>,
    answer: Answer,
}

/// Reads a season, a certificate of it, which is valid, and asks; answers them, searches the stage
/// of the lines that wait, and writes it and then the replies. All memory is taken before the first
/// write.
pub(crate) fn reclear<R: Threads + Sync, C: Cabinet, G: Gate>(
    rt: &R,
    alloc: Global,
    names: &NameList,
    nodes: u32,
    workers: u32,
    cabinet: &mut C,
    gate: &G,
) -> Result<Answer, Stop>
    requires nodes { (1 ≤ nodes) × (nodes ≤ 1000000) }
    requires workers { (1 ≤ workers) × (workers ≤ 16) }
    ensures done { IfOk result (λ a. IsDone (ReclearJob names.now nodes workers)
        (world_of C.files C.fault_count C.log cabinet.old) a.status a.text.items
        (world_of C.files C.fault_count C.log cabinet.new)) }
    ensures stop { IfErr result (λ stop. JobStops names.now (ReclearJob names.now nodes workers)
        (world_of C.files C.fault_count C.log cabinet.old) stop
        (world_of C.files C.fault_count C.log cabinet.new)) }
    ensures others { ChangesOnly (C.files cabinet.old)
        (name_at names.now 4 ∷ name_at names.now 5 ∷ []) (C.files cabinet.new) }
{
    file_changes();
    let output = read_output(rt, alloc, names, nodes, workers, cabinet, gate)?;
    write_two(names, 4, &output.extra, &output.replies, cabinet)?;
    Ok(output.answer)
}

/// Reads what asks leave, searches the stage of the lines that wait, and gives what is written and
/// said of it.
fn read_output<R: Threads + Sync, C: Cabinet, G: Gate>(
    rt: &R,
    alloc: Global,
    names: &NameList,
    nodes: u32,
    workers: u32,
    cabinet: &mut C,
    gate: &G,
) -> Result<ReclearOutput, Stop>
    requires nodes { (1 ≤ nodes) × (nodes ≤ 1000000) }
    requires workers { (1 ≤ workers) × (workers ≤ 16) }
    ensures found { IfOk result (λ output. (capacity requests certificate asks : NamedBytes)
        × IsReclearing names.now nodes capacity.bytes requests.bytes certificate.bytes asks.bytes
        (two_files names.now 4 output.extra.items output.replies.items) output.answer.status
        output.answer.text.items
        × Leads (world_of C.files C.fault_count C.log cabinet.old) (reclear_steps names.now)
        (capacity ∷ requests ∷ certificate ∷ asks ∷ []) []
        (world_of C.files C.fault_count C.log cabinet.new)) }
    ensures stop { IfErr result (λ stop. JobStops names.now (ReclearJob names.now nodes workers)
        (world_of C.files C.fault_count C.log cabinet.old) stop
        (world_of C.files C.fault_count C.log cabinet.new)) }
    ensures unchanged { C.files cabinet.new ≡ C.files cabinet.old }
{
    let left = read_waiting(alloc, names, cabinet)?;
    let output = reclear_output(rt, alloc, &left, nodes, workers, gate)?;
    Ok(output)
}

/// Searches the stage of the lines that wait, and gives what is written and said of it.
fn reclear_output<R: Threads + Sync, G: Gate>(
    rt: &R,
    alloc: Global,
    left: &Left,
    nodes: u32,
    workers: u32,
    gate: &G,
) -> Result<ReclearOutput, Memory>
    requires nodes { (1 ≤ nodes) × (nodes ≤ 1000000) }
    requires workers { (1 ≤ workers) × (workers ≤ 16) }
    requires spelled { All (LineFits left.now.book.book.declaration.season) left.now.waiting }
    requires header { IfSome left.now.header (λ header.
        header.season ≡ left.now.book.book.declaration.season) }
    ensures { IfOk result (λ output. IsWaitingOutput left.now.book.book left.now.waiting
        left.now.header nodes output.extra.items output.replies.items output.answer.status
        output.answer.text.items) }
{
    all_may_be_refused();
    extra_bytes();
    let problem = waiting_problem(alloc, &left.book, &left.waiting)?;
    let stage = reclear_stage(rt, alloc, &problem, nodes, workers, gate)?;
    let extra = print_extra(alloc, &stage)?;
    let replies = write_replies(alloc, left, &stage)?;
    let text = waiting_text(alloc, &left.waiting, &stage)?;
    let status = waiting_status(&stage);
    Ok(ReclearOutput {
        extra,
        replies,
        answer: Answer {
            status,
            text: text.into_bytes(),
        },
    })
}

/// The replies to the lines that wait, by what the stage gives them; nothing where none waits.
fn write_replies(alloc: Global, left: &Left, stage: &StageCert) -> Result<Vec<u8>, Memory>
    requires spelled { All (LineFits left.now.book.book.declaration.season) left.now.waiting }
    requires header { IfSome left.now.header (λ header.
        header.season ≡ left.now.book.book.declaration.season) }
    ensures { IfOk result (λ replies. replies.items ≡ waiting_replies left.now.header
        (allotted_states left.now.book.book.declaration left.now.waiting stage.now.choice)) }
{
    spelled_alternatives();
    option_bounds();
    let states = allotted_states(alloc, &left.book, &left.waiting, &stage.choice)?;
    let Some(header) = left.header else {
        return Ok(Vec::new(alloc));
    };
    let replies = reply_to(alloc, &header, &states)?;
    Ok(replies)
}

/// The reply to lines by what each is given; nothing where there are none.
fn reply_to(alloc: Global, header: &Header, states: &[UnitState]) -> Result<Vec<u8>, Memory>
    requires { All (IsAnswerable header.now.season) states.now }
    ensures { IfOk result (λ replies. replies.items
        ≡ waiting_replies (Some header.now) states.now) }
{
    if states.is_empty() {
        return Ok(Vec::new(alloc));
    }
    units_reply(alloc, header, states)
}

/// How many lines wait, and the line of their stage.
fn waiting_text(alloc: Global, waiting: &Waiting, stage: &StageCert) -> Result<String, Memory>
    ensures { IfOk result (λ text. string_bytes text
        ≡ waiting_text (length waiting.now) stage.now) }
{
    let count = waiting.lines().len();
    let line = mark_line(alloc, 5, stage)?;
    let text = format!(in alloc; "WAITING {count}\n{line}")?;
    Ok(text)
}

/// The status that the stage gives, which is not INFEASIBLE: 9 where it is OPEN, and else 0.
fn waiting_status(stage: &StageCert) -> u8
    requires { stage.now.mark ≡ Infeasible → ⊥ }
    ensures status { result ≡ marks_status (stage.now ∷ []) }
    ensures settled { (stage.now.mark ≡ Unsettled → ⊥) → result ≡ 0 }
{
    match stage.mark {
        Mark::Unsettled => 9,
        _ => 0,
    }
}
