//! Checking the certificate of a season.

ghost use Rattle.std.specs.Prelude.{◌≡◌, IfOk, IfErr};
ghost use Rattle.command_words.specs.declared.job.Job.TheVariants.{Check as CheckJob};
ghost use Rattle.desk_commands.specs.Desk.{world_of};
ghost use Rattle.desk_commands.specs.Outside.{Outside, still};
ghost use Rattle.desk_commands.specs.Ends.{IsDoneBy, JobStopsBy};

use command_words::NameList;
use desk_commands::laws::ended_jobs;
use desk_commands::{Answer, Stop, read_certificate, read_season, yes};
use desk_outside::Cabinet;
use std::alloc::Global;

/// Reads a season and a certificate of it, which is valid; or else says why not.
pub(crate) fn check<C: Cabinet>(
    alloc: Global,
    names: &NameList,
    cabinet: &mut C,
) -> Result<Answer, Stop>
    ensures done { (o : Outside) → IfOk result (λ a. IsDoneBy (CheckJob names.now)
        (world_of C.files C.fault_count C.log cabinet.old) (still o) a.status a.text.items
        (world_of C.files C.fault_count C.log cabinet.new)) }
    ensures stop { (o : Outside) → IfErr result (λ stop. JobStopsBy names.now (CheckJob names.now)
        (world_of C.files C.fault_count C.log cabinet.old) (still o) stop
        (world_of C.files C.fault_count C.log cabinet.new)) }
    ensures unchanged { C.files cabinet.new ≡ C.files cabinet.old }
{
    ended_jobs();
    let submission = read_season(alloc, names, cabinet)?;
    read_certificate(alloc, names, &submission, cabinet)?;
    let text = yes(alloc)?;
    Ok(Answer {
        status: 0,
        text: text.into_bytes(),
    })
}
