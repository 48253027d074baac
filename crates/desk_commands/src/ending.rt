//! What is said at the end of a job.

ghost use Rattle.std.specs.Prelude.{◌≡◌, IfOk, IfErr, Some, codes};
ghost use Rattle.std.specs.String.{string_bytes};
ghost use Rattle.command_words.specs.declared.job.Job.{Job as JobValue};
ghost use Rattle.desk_commands.specs.Desk.{World, LogGrew, OnlyOfJob};
ghost use Rattle.desk_commands.specs.Outside.{OutsideChange};
ghost use Rattle.desk_commands.specs.Ends.{IsDoneBy, JobStopsBy};
ghost use Rattle.desk_commands.specs.Answers.{IsAnswer};

use crate::stop::{Answer, Stop};
use command_words::NameList;
use slot_text::Memory;
use std::alloc::Global;

/// What is said of a job that is done, or that stopped.
pub fn finish(
    alloc: Global,
    names: &NameList,
    ended: Result<Answer, Stop>,
) -> Result<Answer, Memory>
    ensures answer { (job : JobValue) (w : World) (change : OutsideChange) (v : World) →
        IfOk ended (λ done. IsDoneBy job w change done.status done.text.items v) →
        IfErr ended (λ stop. JobStopsBy names.now job w change stop v) →
        IfOk result (λ a. IsAnswer (Some job) w change a.status a.text.items v) }
    ensures asked { (job : JobValue) (w : World) (change : OutsideChange) (v : World) →
        IfOk ended (λ done. IsDoneBy job w change done.status done.text.items v) →
        IfErr ended (λ stop. JobStopsBy names.now job w change stop v) →
        LogGrew w.log (OnlyOfJob (Some job)) v.log }
{
    match ended {
        Ok(answer) => Ok(answer),
        Err(stop) => Ok(stop.answer(alloc, names)?),
    }
}

/// What is said of a valid certificate, and of a valid stage.
pub fn yes(alloc: Global) -> Result<String, Memory>
    ensures { IfOk result (λ text. string_bytes text ≡ codes "YES\n") }
{
    Ok(String::from_str(alloc, "YES\n")?)
}
