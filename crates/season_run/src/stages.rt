//! One stage of a certificate, from what the search of its problem ended with.

ghost use Rattle.std.specs.Prelude.{◌≡◌, ◌^◌, ◌<◌, IfOk, IfSome};
ghost use Rattle.std.specs.Option.{ForSome, option_map};
ghost use Rattle.choice_problem.specs.Choices.{IsFeasible, choice_cost};
ghost use Rattle.cert_format.specs.Proofs.{IsProof};
ghost use Rattle.cert_format.specs.declared.cert.Mark.TheVariants.{Optimal, Unsettled};
ghost use Rattle.season_run.specs.Ends.{IsClosedEnd, IsOpenEnd, IsStageEnd, IsStageOf, StatesNothing, AreStated, MakesStage};
ghost use Rattle.season_run.specs.Steps.{MarksClosed};

use crate::floors::stated_floors;
use crate::names::{first_vectors, greatest_name};
use crate::trials::StageEnd;
use cert_format::{Floor, FloorList, Mark, StageCert};
use choice_problem::{
    Choice, Problem, Tree, VectorList, closed_ranges, cost_of, fewer_vectors, part_ranges,
};
use cost_fixing::Fixing;
use price_table::tables_of;
use search_workers::Outcome;
use slot_text::Memory;
use std::alloc::Global;

/// The stage that the end of a search on its problem makes: its choice, cost and tree, its vectors
/// up to the last one that a leaf or a floor names, and where nodes are undone the floor of each
/// and the stated bound, by all vectors of the search.
///
/// One step a node and what its ranges change; for each undone node one a unit and a vector, and
/// for each unit whose range has changed since the one before, one an alternative in it for each
/// vector. Beside what the outcome has it takes, where nodes are undone, a price table and 24 bytes
/// a unit for each vector, 24 bytes a unit, and 16 an undone node.
pub fn stage_cert(alloc: Global, problem: &Problem, end: StageEnd) -> Result<StageCert, Memory>
    requires { IsStageEnd problem.now end }
    ensures stage { IfOk result (λ c. MakesStage problem.now end c) }
    ensures proof { IfOk result (λ c. IsProof problem.now c) }
{
    let StageEnd { outcome, fixing } = end;
    match outcome {
        Outcome::Optimal {
            choice,
            cost,
            tree,
            vectors,
        } => {
            let mark = Mark::Optimal;
            let cert = closed_cert(
                alloc,
                problem,
                mark,
                Some(choice),
                Some(cost),
                fixing,
                tree,
                vectors,
            );
            Ok(cert)
        }
        Outcome::Infeasible { tree, vectors } => {
            let mark = Mark::Infeasible;
            let cert = closed_cert(alloc, problem, mark, None, None, None, tree, vectors);
            Ok(cert)
        }
        Outcome::Spent {
            best,
            tree,
            vectors,
        } => open_cert(alloc, problem, best, tree, vectors),
    }
}

// The stage of a whole tree.
fn closed_cert(
    alloc: Global,
    _problem: &Problem,
    mark: Mark,
    choice: Option<Choice>,
    cost: Option<u64>,
    fixing: Option<Fixing>,
    tree: Tree,
    vectors: VectorList,
) -> StageCert
    requires end { IsClosedEnd _problem.now vectors fixing cost choice tree }
    requires mark { MarksClosed mark choice }
    requires fixing { IfSome fixing (λ _. mark ≡ Optimal) }
    ensures made { IsStageOf mark choice cost fixing tree vectors result }
    ensures nothing { StatesNothing result }
    ensures proof { IsProof _problem.now result }
{
    fewer_vectors();
    let floors: Vec<Floor> = Vec::new(alloc);
    let number = greatest_name(&fixing, tree.items(), &floors);
    let vectors = first_vectors(vectors, number);
    StageCert {
        mark,
        choice,
        cost,
        bound: None,
        vectors,
        fixing,
        tree,
        floors: FloorList::new(floors),
    }
}

// The cost of a choice, if there is one.
fn cost_if_any(problem: &Problem, choice: &Option<Choice>) -> Option<u64>
    requires { IfSome choice.now (IsFeasible problem.now) }
    ensures { result ≡ option_map (choice_cost problem.now) choice.now }
{
    match choice {
        Some(choice) => Some(cost_of(problem, choice)),
        None => None,
    }
}

// The stage of a tree with undone nodes.
fn open_cert(
    alloc: Global,
    problem: &Problem,
    best: Option<Choice>,
    tree: Tree,
    vectors: VectorList,
) -> Result<StageCert, Memory>
    requires { IsOpenEnd problem.now vectors (option_map (choice_cost problem.now) best) best tree }
    ensures made { IfOk result (λ c. IsStageOf Unsettled best
        (option_map (choice_cost problem.now) best) None tree vectors c) }
    ensures stated { IfOk result
        (λ c. AreStated problem.now vectors c.cost tree c.floors c.bound) }
    ensures proof { IfOk result (λ c. IsProof problem.now c) }
{
    fewer_vectors();
    closed_ranges();
    let cost = cost_if_any(problem, &best);
    let tables = tables_of(alloc, problem, vectors.items())?;
    let stated = stated_floors(alloc, problem, &tables, tree.items(), cost)?;
    let number = greatest_name(&None, tree.items(), &stated.floors);
    let vectors = first_vectors(vectors, number);
    Ok(StageCert {
        mark: Mark::Unsettled,
        choice: best,
        cost,
        bound: stated.bound,
        vectors,
        fixing: None,
        tree,
        floors: FloorList::new(stated.floors),
    })
}
