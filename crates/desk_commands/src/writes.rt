//! The files that a job writes: one, or two one after the other.

ghost use Rattle.std.specs.Prelude.{◌≡◌, ◌<◌, ◌+◌, ◌∷◌, [], ℕ, List, OnOk, IfErr};
ghost use Rattle.desk_outside.specs.Files.{ChangesOnly};
ghost use Rattle.command_words.specs.declared.job.Job.{Job as JobValue};
ghost use Rattle.desk_commands.specs.Judgements.{NamedBytes};
ghost use Rattle.desk_commands.specs.Jobs.{name_at, one_file, two_files, steps_of};
ghost use Rattle.desk_commands.specs.Jobs.{names_written, Works};
ghost use Rattle.desk_commands.specs.Desk.{World, world_of};
ghost use Rattle.desk_commands.specs.Leads.{Leads};
ghost use Rattle.desk_commands.specs.Outside.{OutsideChange};
ghost use Rattle.desk_commands.specs.Ends.{IsDoneBy, JobStopsBy};

use crate::files::write_file;
use crate::stop::Stop;
use command_words::NameList;
use desk_outside::Cabinet;
use desk_outside::laws::file_changes;

/// Writes the file of this name, which ends the work of a job.
pub fn write_one<C: Cabinet>(
    names: &NameList,
    place: usize,
    bytes: &[u8],
    cabinet: &mut C,
) -> Result<(), Stop>
    ensures done { OnOk result ((job : JobValue) (w : World) (change : OutsideChange)
        (inputs : List NamedBytes) (status : ℕ) (text : List ℕ) →
        names_written job ≡ name_at names.now place ∷ [] →
        Leads w (steps_of job) inputs []
        (world_of C.files C.fault_count C.log cabinet.old) →
        Works job inputs (one_file names.now place bytes.now) change status text →
        IsDoneBy job w change status text (world_of C.files C.fault_count C.log cabinet.new)) }
    ensures stop { IfErr result (λ stop. (job : JobValue) (w : World) (change : OutsideChange)
        (inputs : List NamedBytes) (status : ℕ) (text : List ℕ) →
        names_written job ≡ name_at names.now place ∷ [] →
        Leads w (steps_of job) inputs []
        (world_of C.files C.fault_count C.log cabinet.old) →
        Works job inputs (one_file names.now place bytes.now) change status text →
        JobStopsBy names.now job w change stop (world_of C.files C.fault_count C.log cabinet.new)) }
    ensures others { ChangesOnly (C.files cabinet.old) (name_at names.now place ∷ [])
        (C.files cabinet.new) }
{
    file_changes();
    write_file(names, place, bytes, cabinet)?;
    Ok(())
}

/// Writes the file of this name, and then that of the next one, which ends the work of a job.
pub(crate) fn write_two<C: Cabinet>(
    names: &NameList,
    place: usize,
    one: &[u8],
    two: &[u8],
    cabinet: &mut C,
) -> Result<(), Stop>
    requires { place < 5 }
    ensures done { OnOk result ((job : JobValue) (w : World) (change : OutsideChange)
        (inputs : List NamedBytes) (status : ℕ) (text : List ℕ) →
        names_written job ≡ name_at names.now place ∷ name_at names.now (place + 1) ∷ [] →
        Leads w (steps_of job) inputs []
        (world_of C.files C.fault_count C.log cabinet.old) →
        Works job inputs (two_files names.now place one.now two.now) change status text →
        IsDoneBy job w change status text (world_of C.files C.fault_count C.log cabinet.new)) }
    ensures stop { IfErr result (λ stop. (job : JobValue) (w : World) (change : OutsideChange)
        (inputs : List NamedBytes) (status : ℕ) (text : List ℕ) →
        names_written job ≡ name_at names.now place ∷ name_at names.now (place + 1) ∷ [] →
        Leads w (steps_of job) inputs []
        (world_of C.files C.fault_count C.log cabinet.old) →
        Works job inputs (two_files names.now place one.now two.now) change status text →
        JobStopsBy names.now job w change stop (world_of C.files C.fault_count C.log cabinet.new)) }
    ensures others { ChangesOnly (C.files cabinet.old)
        (name_at names.now place ∷ name_at names.now (place + 1) ∷ []) (C.files cabinet.new) }
{
    file_changes();
    write_file(names, place, one, cabinet)?;
    write_file(names, place + 1, two, cabinet)?;
    Ok(())
}
