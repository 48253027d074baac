//! The commands whose work is that of the files that they read: each is carried out, and what is
//! said of it at its end is given.

ghost use Rattle.std.specs.Prelude.{◌≡◌, ◌≤◌, ◌∷◌, [], IfOk, Some};
ghost use Rattle.choice_problem.specs.declared.problems.TheConstants.{MOST_UNITS};
ghost use Rattle.desk_outside.specs.Files.{ChangesOnly};
ghost use Rattle.desk_commands.specs.Jobs.{name_at};
ghost use Rattle.desk_commands.specs.Outside.{Outside, still};
ghost use Rattle.desk_commands.specs.Desk.{World, LogGrew, OnlyOfJob, world_of};
ghost use Rattle.desk_commands.specs.Answers.{IsAnswer};
ghost use Rattle.command_words.specs.declared.job.Job.TheVariants.{Allocate as AllocateJob};
ghost use Rattle.command_words.specs.declared.job.Job.TheVariants.{Amend as AmendJob};
ghost use Rattle.command_words.specs.declared.job.Job.TheVariants.{Usage as UsageJob};
ghost use Rattle.command_words.specs.declared.job.Job.TheVariants.{Reclear as ReclearJob};
ghost use Rattle.command_words.specs.declared.job.Job.TheVariants.{Recheck as RecheckJob};
ghost use Rattle.command_words.specs.declared.job.Job.TheVariants.{Report as ReportJob};
ghost use Rattle.command_words.specs.declared.job.Job.TheVariants.{Inspect as InspectJob};
ghost use Rattle.command_words.specs.declared.job.Job.TheVariants.{Make as MakeJob};
ghost use Rattle.command_words.specs.declared.job.Job.TheVariants.{Trial as TrialJob};

use crate::allocate::allocate;
use crate::amend::amend;
use crate::ending::finish;
use crate::inspect::inspect;
use crate::make::make;
use crate::recheck::recheck;
use crate::reclear::reclear;
use crate::report::report;
use crate::stop::Answer;
use crate::trial::trial;
use crate::usage::usage;
use command_words::NameList;
use desk_outside::Cabinet;
use slot_text::Memory;
use std::alloc::Global;
use std::thread::Threads;
use worker_gate::Gate;

/// Allots a season, and gives what is to be said.
pub fn carry_out_allocate<R: Threads + Sync, C: Cabinet, G: Gate>(
    rt: &R,
    alloc: Global,
    names: &NameList,
    nodes: u32,
    workers: u32,
    cabinet: &mut C,
    gate: &G,
) -> Result<Answer, Memory>
    requires nodes { (1 ≤ nodes) × (nodes ≤ 1000000) }
    requires workers { (1 ≤ workers) × (workers ≤ 16) }
    ensures answer { (o : Outside) → IfOk result (λ a.
        IsAnswer (Some (AllocateJob names.now nodes workers))
        (world_of C.files C.fault_count C.log cabinet.old) (still o) a.status a.text.items
        (world_of C.files C.fault_count C.log cabinet.new)) }
    ensures others { ChangesOnly (C.files cabinet.old)
        (name_at names.now 2 ∷ name_at names.now 3 ∷ []) (C.files cabinet.new) }
    ensures asked { LogGrew (C.log cabinet.old)
        (OnlyOfJob (Some (AllocateJob names.now nodes workers))) (C.log cabinet.new) }
{
    let ended = allocate(rt, alloc, names, nodes, workers, cabinet, gate);
    finish(alloc, names, ended)
}

/// Says what a season is, or what is wrong in it, and gives what is to be said.
pub fn carry_out_inspect<C: Cabinet>(
    alloc: Global,
    names: &NameList,
    cabinet: &mut C,
) -> Result<Answer, Memory>
    ensures answer { (o : Outside) → IfOk result (λ a.
        IsAnswer (Some (InspectJob names.now))
        (world_of C.files C.fault_count C.log cabinet.old) (still o) a.status a.text.items
        (world_of C.files C.fault_count C.log cabinet.new)) }
    ensures unchanged { C.files cabinet.new ≡ C.files cabinet.old }
    ensures asked { LogGrew (C.log cabinet.old) (OnlyOfJob (Some (InspectJob names.now)))
        (C.log cabinet.new) }
{
    let ended = inspect(alloc, names, cabinet);
    finish(alloc, names, ended)
}

/// Answers amendments, and gives what is to be said.
pub fn carry_out_amend<C: Cabinet>(
    alloc: Global,
    names: &NameList,
    cabinet: &mut C,
) -> Result<Answer, Memory>
    ensures answer { (o : Outside) → IfOk result (λ a.
        IsAnswer (Some (AmendJob names.now))
        (world_of C.files C.fault_count C.log cabinet.old) (still o) a.status a.text.items
        (world_of C.files C.fault_count C.log cabinet.new)) }
    ensures others { ChangesOnly (C.files cabinet.old) (name_at names.now 4 ∷ [])
        (C.files cabinet.new) }
    ensures asked { LogGrew (C.log cabinet.old) (OnlyOfJob (Some (AmendJob names.now)))
        (C.log cabinet.new) }
{
    let ended = amend(alloc, names, cabinet);
    finish(alloc, names, ended)
}

/// Watches what was operated, and gives what is to be said.
pub fn carry_out_usage<C: Cabinet>(
    alloc: Global,
    names: &NameList,
    cabinet: &mut C,
) -> Result<Answer, Memory>
    ensures answer { (o : Outside) → IfOk result (λ a.
        IsAnswer (Some (UsageJob names.now))
        (world_of C.files C.fault_count C.log cabinet.old) (still o) a.status a.text.items
        (world_of C.files C.fault_count C.log cabinet.new)) }
    ensures others { ChangesOnly (C.files cabinet.old) (name_at names.now 4 ∷ [])
        (C.files cabinet.new) }
    ensures asked { LogGrew (C.log cabinet.old) (OnlyOfJob (Some (UsageJob names.now)))
        (C.log cabinet.new) }
{
    let ended = usage(alloc, names, cabinet);
    finish(alloc, names, ended)
}

/// Clears a waiting list, and gives what is to be said.
pub fn carry_out_reclear<R: Threads + Sync, C: Cabinet, G: Gate>(
    rt: &R,
    alloc: Global,
    names: &NameList,
    nodes: u32,
    workers: u32,
    cabinet: &mut C,
    gate: &G,
) -> Result<Answer, Memory>
    requires nodes { (1 ≤ nodes) × (nodes ≤ 1000000) }
    requires workers { (1 ≤ workers) × (workers ≤ 16) }
    ensures answer { (o : Outside) → IfOk result (λ a.
        IsAnswer (Some (ReclearJob names.now nodes workers))
        (world_of C.files C.fault_count C.log cabinet.old) (still o) a.status a.text.items
        (world_of C.files C.fault_count C.log cabinet.new)) }
    ensures others { ChangesOnly (C.files cabinet.old)
        (name_at names.now 4 ∷ name_at names.now 5 ∷ []) (C.files cabinet.new) }
    ensures asked { LogGrew (C.log cabinet.old)
        (OnlyOfJob (Some (ReclearJob names.now nodes workers))) (C.log cabinet.new) }
{
    let ended = reclear(rt, alloc, names, nodes, workers, cabinet, gate);
    finish(alloc, names, ended)
}

/// Checks the stage of a waiting list, and gives what is to be said.
pub fn carry_out_recheck<C: Cabinet>(
    alloc: Global,
    names: &NameList,
    cabinet: &mut C,
) -> Result<Answer, Memory>
    ensures answer { (o : Outside) → IfOk result (λ a.
        IsAnswer (Some (RecheckJob names.now))
        (world_of C.files C.fault_count C.log cabinet.old) (still o) a.status a.text.items
        (world_of C.files C.fault_count C.log cabinet.new)) }
    ensures unchanged { C.files cabinet.new ≡ C.files cabinet.old }
    ensures asked { LogGrew (C.log cabinet.old) (OnlyOfJob (Some (RecheckJob names.now)))
        (C.log cabinet.new) }
{
    let ended = recheck(alloc, names, cabinet);
    finish(alloc, names, ended)
}

/// Tells why each series was given what it was given, and gives what is to be said.
pub fn carry_out_report<C: Cabinet>(
    alloc: Global,
    names: &NameList,
    cabinet: &mut C,
) -> Result<Answer, Memory>
    ensures answer { (o : Outside) → IfOk result (λ a.
        IsAnswer (Some (ReportJob names.now))
        (world_of C.files C.fault_count C.log cabinet.old) (still o) a.status a.text.items
        (world_of C.files C.fault_count C.log cabinet.new)) }
    ensures others { ChangesOnly (C.files cabinet.old)
        (name_at names.now 3 ∷ name_at names.now 4 ∷ []) (C.files cabinet.new) }
    ensures asked { LogGrew (C.log cabinet.old) (OnlyOfJob (Some (ReportJob names.now)))
        (C.log cabinet.new) }
{
    let ended = report(alloc, names, cabinet);
    finish(alloc, names, ended)
}

/// Writes a generated season, and gives what is to be said.
pub fn carry_out_make<C: Cabinet>(
    alloc: Global,
    number: u32,
    units: u32,
    names: &NameList,
    cabinet: &mut C,
) -> Result<Answer, Memory>
    requires { units ≤ MOST_UNITS }
    ensures answer { (o : Outside) → IfOk result (λ a.
        IsAnswer (Some (MakeJob number units names.now))
        (world_of C.files C.fault_count C.log cabinet.old) (still o) a.status a.text.items
        (world_of C.files C.fault_count C.log cabinet.new)) }
    ensures others { ChangesOnly (C.files cabinet.old)
        (name_at names.now 0 ∷ name_at names.now 1 ∷ []) (C.files cabinet.new) }
    ensures asked { LogGrew (C.log cabinet.old)
        (OnlyOfJob (Some (MakeJob number units names.now))) (C.log cabinet.new) }
{
    let ended = make(alloc, number, units, names, cabinet);
    finish(alloc, names, ended)
}

/// Tries a generated season, and gives what is to be said. No file is read or written.
pub fn carry_out_trial<R: Threads + Sync, G: Gate>(
    rt: &R,
    alloc: Global,
    number: u32,
    units: u32,
    gate: &G,
) -> Result<Answer, Memory>
    requires { units ≤ MOST_UNITS }
    ensures { IfOk result (λ a. (w : World) (o : Outside) →
        IsAnswer (Some (TrialJob number units)) w (still o) a.status a.text.items w) }
{
    let answer = trial(rt, alloc, number, units, gate)?;
    Ok(answer)
}
