//! The search so far.

ghost use Rattle.std.specs.Prelude.{◌≡◌, ◌^◌, ◌<◌, ◌-◌, IfSome};
ghost use Rattle.std.specs.Option.{ForSome, option_map};
ghost use Rattle.choice_problem.specs.Choices.{IsFeasible, choice_cost};
ghost use Rattle.choice_problem.specs.Greedy.{IsGreedyCost};
ghost use Rattle.incumbent_word.specs.Core.{lesser, AtMost};
ghost use Rattle.search_workers.specs.Work.{IsStart, lesser_choice};

use choice_problem::{Choice, Node, Problem, cost_of};

// The tree so far, and the best choice with its cost.
#[derive(Drop)]
pub(crate) struct State {
    pub(crate) tree: Vec<Node>,
    pub(crate) cost: Option<u64>,
    pub(crate) best: Option<Choice>,
}

// What is known before the first visit: the cost of the greedy choice, and the best choice with its
// cost.
#[derive(Drop)]
pub(crate) struct Start {
    pub(crate) greedy: Option<u64>,
    pub(crate) cost: Option<u64>,
    pub(crate) best: Option<Choice>,
}

impl Start {
    // The start from the greedy choice, and another one.
    pub(crate) fn new(problem: &Problem, greedy: Option<Choice>, other: Option<Choice>) -> Start
        requires greedy { IsGreedyCost problem.now (option_map (choice_cost problem.now) greedy) }
        requires feasible { IfSome greedy (IsFeasible problem.now) }
        requires other { IfSome other (IsFeasible problem.now) }
        ensures start { IsStart problem.now result }
        ensures other { AtMost result.cost (option_map (choice_cost problem.now) other) }
    {
        let known = cost_if_any(problem, &greedy);
        let more = cost_if_any(problem, &other);
        Start {
            greedy: known,
            cost: lesser_cost(known, more),
            best: cheaper(known, greedy, more, other),
        }
    }
}

// The choice of the lesser cost.
pub(crate) fn cheaper(
    first: Option<u64>,
    one: Option<Choice>,
    second: Option<u64>,
    other: Option<Choice>,
) -> Option<Choice>
    ensures { result ≡ lesser_choice first second one other }
{
    match (first, second) {
        (None, Some(_)) => other,
        (Some(least), Some(found)) if found < least => other,
        _ => one,
    }
}

// The cost of a choice, if there is one.
pub(crate) fn cost_if_any(problem: &Problem, choice: &Option<Choice>) -> Option<u64>
    requires { IfSome choice.now (IsFeasible problem.now) }
    ensures value { result ≡ option_map (choice_cost problem.now) choice.now }
    ensures small { ForSome result (λ c. c < 2 ^ 64 - 1) }
{
    match choice {
        Some(choice) => Some(cost_of(problem, choice)),
        None => None,
    }
}

// The smaller of two costs, where no cost is greater than every cost.
fn lesser_cost(first: Option<u64>, second: Option<u64>) -> Option<u64>
    ensures { result ≡ lesser first second }
{
    match (first, second) {
        (Some(one), Some(other)) => Some(one.min(other)),
        (None, other) => other,
        (one, None) => one,
    }
}

impl State {
    // The state of a tree, where a choice may have been found beside the best one of this cost.
    pub(crate) fn with_found(
        problem: &Problem,
        tree: Vec<Node>,
        cost: Option<u64>,
        best: Option<Choice>,
        found: Option<Choice>,
    ) -> State
        requires { IfSome found (IsFeasible problem.now) }
        ensures tree { result.tree.items ≡ tree.items }
        ensures cost { result.cost ≡ lesser cost (option_map (choice_cost problem.now) found) }
        ensures best { result.best
            ≡ lesser_choice cost (option_map (choice_cost problem.now) found) best found }
    {
        let more = cost_if_any(problem, &found);
        let best = cheaper(cost, best, more, found);
        State {
            tree,
            cost: lesser_cost(cost, more),
            best,
        }
    }
}
