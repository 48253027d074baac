//! The files of a job: reading one as the next step, and writing one.

ghost use Rattle.std.specs.Prelude.{◌≡◌, ◌≤◌, ◌∷◌, [], ◌++◌, ℕ, List, length, IfOk, IfErr, OnOk};
ghost use Rattle.std.specs.Prelude.{OnErr};
ghost use Rattle.desk_outside.specs.Cause.{Rose};
ghost use Rattle.desk_outside.specs.Files.{Writes, WritesPart};
ghost use Rattle.desk_outside.specs.Passages.{wrote, write_failed};
ghost use Rattle.desk_commands.specs.Judgements.{NamedBytes};
ghost use Rattle.desk_commands.specs.Steps.{Step, reads};
ghost use Rattle.desk_commands.specs.Jobs.{name_at};
ghost use Rattle.desk_commands.specs.Desk.{World, world_of};
ghost use Rattle.desk_commands.specs.Leads.{Leads};
ghost use Rattle.desk_commands.specs.Stops.{StopLeads};

use crate::stop::{Stop, name_at};
use command_words::NameList;
use desk_outside::{Cabinet, CabinetFault};
use std::alloc::Global;

/// The most bytes that are read of a file that is no certificate: 4 MiB.
pub(crate) const LONGEST_FILE: usize = 4_194_304;

/// The most bytes that are read of a certificate: 512 MiB.
pub(crate) const LONGEST_CERT_FILE: usize = 536_870_912;

/// Reads the file of this name, which is the next step of a job.
pub(crate) fn read_file<C: Cabinet>(
    alloc: Global,
    names: &NameList,
    place: usize,
    most: usize,
    cabinet: &mut C,
) -> Result<Vec<u8>, Stop>
    ensures leads { IfOk result (λ bytes. (w : World) (all : List Step)
        (before : List NamedBytes) (steps : List Step) →
        Leads w all before (reads (name_at names.now place) most ∷ steps)
        (world_of C.files C.fault_count C.log cabinet.old) →
        Leads w all
        (before ++ record { name = name_at names.now place; bytes = bytes.items } ∷ []) steps
        (world_of C.files C.fault_count C.log cabinet.new)) }
    ensures stop { IfErr result (λ stop. (w : World) (all : List Step)
        (before : List NamedBytes) (steps : List Step) →
        Leads w all before (reads (name_at names.now place) most ∷ steps)
        (world_of C.files C.fault_count C.log cabinet.old) →
        StopLeads names.now w all stop (world_of C.files C.fault_count C.log cabinet.new)) }
    ensures short { IfOk result (λ bytes. length bytes.items ≤ most) }
    ensures unchanged { C.files cabinet.new ≡ C.files cabinet.old }
{
    match cabinet.read(alloc, name_at(names, place), most) {
        Ok(bytes) => Ok(bytes),
        Err(CabinetFault::Failed) => Err(Stop::Unread(place)),
        Err(CabinetFault::Missing) => Err(Stop::Missing(place)),
        Err(CabinetFault::Larger) => Err(Stop::Large(place)),
        Err(CabinetFault::Memory) => Err(Stop::Memory),
    }
}

/// Writes the file of this name.
pub(crate) fn write_file<C: Cabinet>(
    names: &NameList,
    place: usize,
    bytes: &[u8],
    cabinet: &mut C,
) -> Result<(), Stop>
    ensures ok { OnOk result (Writes (C.files cabinet.old)
        (name_at names.now place) bytes.now (C.files cabinet.new)) }
    ensures part { OnErr result (WritesPart (C.files cabinet.old)
        (name_at names.now place) bytes.now (C.files cabinet.new)) }
    ensures ok_passed { OnOk result (C.log cabinet.new
        ≡ C.log cabinet.old ++ wrote (name_at names.now place) bytes.now ∷ []) }
    ensures part_passed { OnErr result (C.log cabinet.new
        ≡ C.log cabinet.old ++ write_failed (name_at names.now place) bytes.now ∷ []) }
    ensures stop { IfErr result (λ stop. stop ≡ Stop.Unwritten place) }
    ensures rose { OnErr result (Rose (C.fault_count cabinet.old) (C.fault_count cabinet.new)) }
    ensures kept { OnOk result (C.fault_count cabinet.new ≡ C.fault_count cabinet.old) }
{
    match cabinet.write(name_at(names, place), bytes) {
        Ok(()) => Ok(()),
        Err(_) => Err(Stop::Unwritten(place)),
    }
}
