//! Writing a generated season.

ghost use Rattle.std.specs.Prelude.{◌≤◌, ◌∷◌, [], IfOk, IfErr};
ghost use Rattle.choice_problem.specs.declared.problems.TheConstants.{MOST_UNITS};
ghost use Rattle.desk_outside.specs.Files.{ChangesOnly};
ghost use Rattle.command_words.specs.declared.job.Job.TheVariants.{Make as MakeJob};
ghost use Rattle.desk_commands.specs.Jobs.{name_at};
ghost use Rattle.desk_commands.specs.Desk.{world_of};
ghost use Rattle.desk_commands.specs.Ends.{IsDone, JobStops};

use crate::stop::{Answer, Stop};
use crate::writes::write_two;
use command_words::NameList;
use desk_outside::Cabinet;
use desk_outside::laws::file_changes;
use season_maker::make_season;
use std::alloc::Global;

/// Makes a season, and writes its capacity file and then its requests.
pub(crate) fn make<C: Cabinet>(
    alloc: Global,
    number: u32,
    units: u32,
    names: &NameList,
    cabinet: &mut C,
) -> Result<Answer, Stop>
    requires { units ≤ MOST_UNITS }
    ensures done { IfOk result (λ a. IsDone (MakeJob number units names.now)
        (world_of C.files C.fault_count C.log cabinet.old) a.status a.text.items
        (world_of C.files C.fault_count C.log cabinet.new)) }
    ensures stop { IfErr result (λ stop. JobStops names.now (MakeJob number units names.now)
        (world_of C.files C.fault_count C.log cabinet.old) stop
        (world_of C.files C.fault_count C.log cabinet.new)) }
    ensures others { ChangesOnly (C.files cabinet.old)
        (name_at names.now 0 ∷ name_at names.now 1 ∷ []) (C.files cabinet.new) }
{
    file_changes();
    let (capacity, requests) = make_season(alloc, number, units)?;
    write_two(names, 0, &capacity, &requests, cabinet)?;
    Ok(Answer {
        status: 0,
        text: Vec::new(alloc),
    })
}
