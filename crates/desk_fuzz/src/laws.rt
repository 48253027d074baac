//! Names of laws that do not hold: none is an empty text.

/// The first of two.
pub fn first_of(one: &'static str, other: &'static str) -> &'static str {
    if one.is_empty() { other } else { one }
}

/// A law that holds, or its name.
pub fn law(holds: bool, name: &'static str) -> &'static str {
    if holds { "" } else { name }
}
