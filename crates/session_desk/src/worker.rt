//! Workers, each with a door and a pass.
ghost use Rattle.std.specs.Prelude.{◌≡◌, ◌≤◌, [], ℕ, length, map, reverse, vec_capacity};
ghost use Rattle.std.specs.Prelude.{IfSome, IfNone};
ghost use Rattle.session_desk.specs.Served.{HasServed, GoesOn};
ghost use Rattle.session_desk.specs.Private.Serving.{HasGoneOn, EndsBySession, EndStopped};

use crate::responder::Responder;
use crate::session::{SessionEnd, SessionFault, serve};
use desk_links::Door;
use std::alloc::Global;
use std::sync::Wait;

/// How the work of a worker ended.
#[derive(Clone, Copy, Debug, PartialEq, Eq)]
pub enum DoorEnd {
    /// It served as many links as it was to, or all that its door had.
    Served,
    /// The history is full.
    Full,
    /// What is kept beside the history has failed.
    Broken,
    /// The door did not hand out a link.
    Door,
    Memory,
}

/// What a worker did at its door.
#[derive(Clone, Copy, Debug, PartialEq, Eq)]
pub struct DoorWork {
    /// How many links it served.
    pub links: u32,
    pub end: DoorEnd,
}

/// One worker.
#[derive(Drop)]
pub(crate) struct Worker<P, D> {
    pub pass: P,
    pub door: D,
    pub work: DoorWork,
}

/// Serves at most so many links of a door, one after the other.
pub(crate) fn serve_door<R: Wait, A: Responder, D: Door>(
    rt: &R,
    alloc: Global,
    responder: &A,
    pass: &mut A::Pass,
    door: &mut D,
    links: u32,
) -> DoorWork
    requires ready { A.ready responder.now pass.old }
    ensures ready { A.ready responder.now pass.new }
    ensures served { HasServed (A.answers (A.about responder.now))
        (A.begins (A.about responder.now)) links (D.view door.old) (A.own pass.old) result
        (D.view door.new) (A.own pass.new) }
    ensures stopped { EndStopped (A.stopped responder.now pass.new) result.end }
{
    for served in 0..links {
        if let Some(last) = serve_next(rt, alloc, responder, pass, door) {
            return DoorWork {
                links: served + last.links,
                end: last.end,
            };
        }
    }
    DoorWork {
        links,
        end: DoorEnd::Served,
    }
}

/// Serves the next link of a door. None where the worker goes on; else what it did in this call.
fn serve_next<R: Wait, A: Responder, D: Door>(
    rt: &R,
    alloc: Global,
    responder: &A,
    pass: &mut A::Pass,
    door: &mut D,
) -> Option<DoorWork>
    requires ready { A.ready responder.now pass.old }
    ensures ready { A.ready responder.now pass.new }
    ensures few { IfSome result (λ work. work.links ≤ 1) }
    ensures stopped { IfSome result (λ work.
        EndStopped (A.stopped responder.now pass.new) work.end) }
    ensures next { IfNone result (HasGoneOn (A.answers (A.about responder.now))
        (A.begins (A.about responder.now)) 1 (D.view door.old) (A.own pass.old) (D.view door.new)
        (A.own pass.new)) }
    ensures last { IfSome result (λ work. (links : ℕ) → 1 ≤ links
        → HasServed (A.answers (A.about responder.now)) (A.begins (A.about responder.now)) links
        (D.view door.old) (A.own pass.old) work (D.view door.new) (A.own pass.new)) }
{
    match door.accept() {
        Err(_) => Some(DoorWork {
            links: 0,
            end: DoorEnd::Door,
        }),
        Ok(None) => Some(DoorWork {
            links: 0,
            end: DoorEnd::Served,
        }),
        Ok(Some(mut link)) => {
            let ended = serve(rt, alloc, responder, pass, &mut link);
            responder.piece_done(false);
            door.finish(link);
            work_after(&ended)
        }
    }
}

/// After which ends of a session the worker does not go on.
fn work_after(ended: &Result<SessionEnd, SessionFault>) -> Option<DoorWork>
    ensures few { IfSome result (λ work. work.links ≡ 1) }
    ensures goes_on { IfNone result (GoesOn ended.now) }
    ensures ends { IfSome result (λ work. EndsBySession work.end ended.now) }
{
    let end = match ended {
        Err(SessionFault::Full { length: _ }) => DoorEnd::Full,
        Err(SessionFault::Broken { faults: _ }) => DoorEnd::Broken,
        Err(SessionFault::Memory) => DoorEnd::Memory,
        Ok(_) | Err(SessionFault::Link) | Err(SessionFault::TooLong) => return None,
    };
    Some(DoorWork { links: 1, end })
}

/// Pairs each door with the pass at the same place, the last pair first. It takes no memory.
pub(crate) fn pair_up<P, D>(
    doors: &mut Vec<D>,
    passes: &mut Vec<P>,
    workers: &mut Vec<Worker<P, D>>,
)
    requires same { length doors.old.items ≡ length passes.old.items }
    requires none { workers.old.items ≡ [] }
    requires room { length doors.old.items ≤ vec_capacity workers.old }
    ensures doors { reverse (map (λ w. w.door) workers.new.items) ≡ doors.old.items }
    ensures passes { reverse (map (λ w. w.pass) workers.new.items) ≡ passes.old.items }
    ensures empty { (doors.new.items ≡ []) × (passes.new.items ≡ []) }
    ensures kept { (vec_capacity doors.new ≡ vec_capacity doors.old)
        × (vec_capacity passes.new ≡ vec_capacity passes.old) }
{
    for _round in 0..doors.len() {
        if let Some(door) = doors.pop() {
            if let Some(pass) = passes.pop() {
                workers.push_reserved(Worker {
                    pass,
                    door,
                    work: DoorWork {
                        links: 0,
                        end: DoorEnd::Served,
                    },
                });
            } else {
                unreachable!()
            }
        }
    }
}

/// Takes workers apart again: their doors, their passes and what they did, in the order before they
/// were paired. It takes no memory.
pub(crate) fn take_apart<P: Drop, D: Drop>(
    workers: Vec<Worker<P, D>>,
    doors: &mut Vec<D>,
    passes: &mut Vec<P>,
    works: &mut Vec<DoorWork>,
)
    requires doors { (doors.old.items ≡ []) × (length workers.items ≤ vec_capacity doors.old) }
    requires passes { (passes.old.items ≡ []) × (length workers.items ≤ vec_capacity passes.old) }
    requires works { (works.old.items ≡ []) × (length workers.items ≤ vec_capacity works.old) }
    ensures doors { doors.new.items ≡ reverse (map (λ w. w.door) workers.items) }
    ensures passes { passes.new.items ≡ reverse (map (λ w. w.pass) workers.items) }
    ensures works { works.new.items ≡ reverse (map (λ w. w.work) workers.items) }
{
    let mut workers = workers;
    for _round in 0..workers.len() {
        if let Some(worker) = workers.pop() {
            let Worker { pass, door, work } = worker;
            doors.push_reserved(door);
            passes.push_reserved(pass);
            works.push_reserved(work);
        } else {
            unreachable!()
        }
    }
}
