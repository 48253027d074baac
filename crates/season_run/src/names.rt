//! Which vectors of a search a stage keeps.

ghost use Rattle.std.specs.Prelude.{◌≡◌, ◌⊎◌, ◌≤◌, take};
ghost use Rattle.std.specs.Option.{option_map_or};
ghost use Rattle.season_run.specs.Ends.{IsGreatestName};
ghost use Rattle.season_run.specs.Steps.{IsGreatestAtFloors};

use cert_format::Floor;
use choice_problem::{Node, VectorList, greatest_named};
use cost_fixing::Fixing;

// The greatest number of a vector that a leaf, a floor or the fixing names.
pub(crate) fn greatest_name(fixing: &Option<Fixing>, tree: &[Node], floors: &[Floor]) -> u32
    ensures { IsGreatestName fixing.now tree.now floors.now result }
{
    let at_leaves = greatest_named(tree);
    let at_floors = greatest_at_floors(floors);
    let at_fixing = fixed_name(fixing);
    if at_fixing >= at_floors && at_fixing >= at_leaves {
        at_fixing
    } else if at_floors >= at_leaves {
        at_floors
    } else {
        at_leaves
    }
}

// The number of the vector that a fixing names; 0 without one.
fn fixed_name(fixing: &Option<Fixing>) -> u32
    ensures { result ≡ option_map_or (λ f. f.vector) fixing.now 0 }
{
    match fixing {
        Some(fixing) => fixing.vector,
        None => 0,
    }
}

// The greatest number that a floor names.
fn greatest_at_floors(floors: &[Floor]) -> u32
    ensures { IsGreatestAtFloors floors.now result }
{
    let mut most = 0;
    for floor in floors {
        most = greater_floor(most, *floor);
    }
    most
}

// The greater of a number and the vector that a floor names.
fn greater_floor(most: u32, floor: Floor) -> u32
    ensures least { most ≤ result }
    ensures names { floor.vector ≤ result }
    ensures which { (result ≡ most) ⊎ (floor.vector ≡ result) }
{
    if floor.vector > most {
        floor.vector
    } else {
        most
    }
}

// The first vectors.
pub(crate) fn first_vectors(vectors: VectorList, count: u32) -> VectorList
    ensures { result ≡ take count vectors }
{
    let mut items = vectors.into_items();
    items.truncate(count as usize);
    VectorList::new(items)
}
