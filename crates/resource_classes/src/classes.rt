//! Classes of resources, as lists.

ghost use Rattle.std.specs.Prelude.{◌+◌, ◌<◌, All, IfOk, OnOk};
ghost use Rattle.choice_problem.specs.Problems.{resource_count};
ghost use Rattle.resource_classes.specs.Classes.{ArePicked};
ghost use Rattle.resource_classes.specs.declared.classes.Class.{Class};

use choice_problem::Problem;
use slot_text::Memory;
use std::alloc::Global;
use std::marker::Model;

/// A resource that stands for all resources with the same users and uses, and for those whose users
/// are among its own.
#[derive(Clone, Copy, Debug, PartialEq, Eq)]
pub struct Class {
    /// The number of the resource, from 0: of those with the same users and uses, one with the
    /// least limit.
    pub resource: u32,
    /// Its limit.
    pub limit: i64,
}

/// Classes, by rising resource.
#[derive(Drop)]
pub struct ClassList {
    classes: Vec<Class>,
}

impl Model for ClassList {
    ghost use Rattle.std.specs.Prelude.{List};
    ghost use Rattle.resource_classes.specs.declared.classes.Class.{Class};

    ghost Value = { List Class };

    ghost view = { λ c. c.classes.items };
}

impl ClassList {
    ghost use Rattle.std.specs.Prelude.{◌≡◌};

    /// The classes.
    pub fn items(&self) -> &[Class]
        ensures { result.now ≡ self.now }
    {
        &self.classes
    }
}

/// The classes of the marked resources, by rising number. A resource behind the last mark is not
/// marked. One step a resource.
pub fn marked_classes(alloc: Global, problem: &Problem, marks: &[bool]) -> Result<ClassList, Memory>
    ensures { IfOk result (λ classes. ArePicked problem.now classes) }
{
    let mut classes = Vec::new(alloc);
    for number in 0..problem.resources() {
        if is_marked(marks, number) {
            push_class(&mut classes, problem, number)?;
        }
    }
    Ok(ClassList { classes })
}

// Adds the class of a resource that is higher than those of all others.
fn push_class(classes: &mut Vec<Class>, problem: &Problem, number: u32) -> Result<(), Memory>
    requires there { number < resource_count problem.now }
    requires picked { ArePicked problem.now classes.old.items }
    requires below { All (λ (c : Class). c.resource < number) classes.old.items }
    ensures picked { OnOk result (ArePicked problem.now classes.new.items) }
    ensures below { OnOk result (All (λ (c : Class). c.resource < number + 1) classes.new.items) }
{
    classes.push(Class {
        resource: number,
        limit: problem.limit(number),
    })?;
    Ok(())
}

// Whether a resource is marked.
fn is_marked(marks: &[bool], number: u32) -> bool {
    let at = number as usize;
    if at < marks.len() { marks[at] } else { false }
}
