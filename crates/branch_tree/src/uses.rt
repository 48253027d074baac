//! What a unit uses, kept.

ghost use Rattle.std.specs.Prelude.{◌≡◌};

use std::marker::Model;

// Places of listed resources, each as often as a unit uses the resource whatever it takes of its
// range.
#[derive(Drop)]
pub(crate) struct Uses {
    places: Vec<u32>,
}

impl Model for Uses {
    ghost use Rattle.std.specs.Prelude.{List, ℕ};

    ghost Value = { List ℕ };

    ghost view = { λ u. u.places.items };
}

impl Uses {
    ghost use Rattle.std.specs.Prelude.{◌≡◌};

    // These places.
    pub(crate) fn of(places: Vec<u32>) -> Uses
        ensures { result ≡ places.items }
    {
        Uses { places }
    }

    // The places.
    pub(crate) fn places(&self) -> &[u32]
        ensures { result.now ≡ self.now }
    {
        &self.places
    }
}
