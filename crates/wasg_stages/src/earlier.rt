//! The choices of the stages that were done.

ghost use Rattle.std.specs.Prelude.{◌≡◌, ◌≤◌, length};

use choice_problem::Choice;
use std::marker::Model;

/// The choices of the stages that were done, one item a stage, from stage 1 on.
#[derive(Drop)]
pub struct Earlier {
    choices: Vec<Option<Choice>>,
}

impl Model for Earlier {
    ghost use Rattle.std.specs.Prelude.{List, ℕ, Option};

    ghost Value = { List (Option (List ℕ)) };

    ghost view = { λ e. e.choices.items };
}

impl Earlier {
    /// The list of these choices, at most three.
    pub fn new(choices: Vec<Option<Choice>>) -> Earlier
        requires { length choices.items ≤ 3 }
        ensures { result ≡ choices.items }
    {
        Earlier { choices }
    }

    /// The choices, that of stage 1 first.
    pub fn items(&self) -> &[Option<Choice>]
        ensures { result.now ≡ self.now }
    {
        &self.choices
    }
}
