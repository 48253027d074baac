//! What is printed of the stages of a season, and the status that they give.

ghost use Rattle.std.specs.Prelude.{◌≡◌, ◌≤◌, ◌<◌, ◌^◌, List, length, All, IfOk};
ghost use Rattle.std.specs.String.{string_bytes};
ghost use Rattle.cert_format.specs.declared.cert.StageCert.{StageCert as StageCertValue};
ghost use Rattle.desk_commands.specs.StageLines.{cost_word, bound_words, mark_line, mark_lines};
ghost use Rattle.desk_commands.specs.StageLines.{node_total, is_infeasible, is_open, some_mark};
ghost use Rattle.desk_commands.specs.StageLines.{marks_status};

use cert_format::{Mark, StageCert};
use choice_problem::count_nodes;
use slot_text::Memory;
use std::alloc::Global;

/// The line of each stage, that of stage 1 first.
pub(crate) fn mark_lines(alloc: Global, stages: &[StageCert]) -> Result<String, Memory>
    ensures { IfOk result (λ text. string_bytes text ≡ mark_lines 1 stages.now) }
{
    let mut text = String::new(alloc);
    for (i, stage) in stages.iter().enumerate() {
        let line = mark_line(alloc, i as u64 + 1, stage)?;
        text.push_str(&line)?;
    }
    Ok(text)
}

/// The line of a stage.
pub(crate) fn mark_line(alloc: Global, stage: u64, cert: &StageCert) -> Result<String, Memory>
    ensures { IfOk result (λ text. string_bytes text ≡ mark_line stage cert.now) }
{
    match cert.mark {
        Mark::Optimal => {
            let cost = cost_word(alloc, cert.cost)?;
            let text = format!(in alloc; "STAGE {stage} OPTIMAL {cost}\n")?;
            Ok(text)
        }
        Mark::Infeasible => {
            let text = format!(in alloc; "STAGE {stage} INFEASIBLE\n")?;
            Ok(text)
        }
        Mark::Unsettled => {
            let cost = cost_word(alloc, cert.cost)?;
            let bound = bound_words(alloc, cert.bound)?;
            let text = format!(in alloc; "STAGE {stage} OPEN {cost}{bound}\n")?;
            Ok(text)
        }
        Mark::NotTried => {
            let text = format!(in alloc; "STAGE {stage} NOT TRIED\n")?;
            Ok(text)
        }
    }
}

/// What an allotment displaces, if there is one.
fn cost_word(alloc: Global, cost: Option<u64>) -> Result<String, Memory>
    ensures { IfOk result (λ text. string_bytes text ≡ cost_word cost) }
{
    match cost {
        None => Ok(String::from_str(alloc, "NONE")?),
        Some(cost) => {
            let text = format!(in alloc; "{cost}")?;
            Ok(text)
        }
    }
}

/// The bound of a stage, if there is one.
fn bound_words(alloc: Global, bound: Option<u64>) -> Result<String, Memory>
    ensures { IfOk result (λ text. string_bytes text ≡ bound_words bound) }
{
    match bound {
        None => Ok(String::new(alloc)),
        Some(bound) => {
            let text = format!(in alloc; " BOUND {bound}")?;
            Ok(text)
        }
    }
}

/// The status that stages give: 8 where one is INFEASIBLE, else 9 where one is OPEN, and else 0.
pub(crate) fn marks_status(stages: &[StageCert]) -> u8
    ensures { result ≡ marks_status stages.now }
{
    if some_infeasible(stages) {
        return 8;
    }
    if some_open(stages) {
        return 9;
    }
    0
}

/// Whether a stage is INFEASIBLE.
fn some_infeasible(stages: &[StageCert]) -> bool
    ensures { result ≡ some_mark is_infeasible stages.now }
{
    for stage in stages {
        if is_infeasible(stage.mark) {
            return true;
        }
    }
    false
}

/// Whether a stage is OPEN.
fn some_open(stages: &[StageCert]) -> bool
    ensures { result ≡ some_mark is_open stages.now }
{
    for stage in stages {
        if is_open(stage.mark) {
            return true;
        }
    }
    false
}

fn is_infeasible(mark: Mark) -> bool
    ensures { result ≡ is_infeasible mark }
{
    matches!(mark, Mark::Infeasible)
}

fn is_open(mark: Mark) -> bool
    ensures { result ≡ is_open mark }
{
    matches!(mark, Mark::Unsettled)
}

/// How many nodes the trees of the stages have together.
pub(crate) fn node_total(stages: &[StageCert]) -> u64
    requires four { length stages.now ≤ 4 }
    requires few { All (λ (c : StageCertValue). length c.tree < 2 ^ 32) stages.now }
    ensures { result ≡ node_total stages.now }
{
    let mut total = 0;
    for stage in stages {
        total += u64::from(count_nodes(&stage.tree));
    }
    total
}
