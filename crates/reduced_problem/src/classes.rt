//! Uses of classes of resources, those that use them, and marks.

/// How often a part uses a class.
#[derive(Clone, Copy, Debug, PartialEq, Eq)]
pub struct ClassUse {
    /// The number of the class, from 0.
    pub class: u32,
    /// How often the part uses it.
    pub uses: u32,
}

/// Parts of one unit that follow one another and use a class equally often. Parts are numbered
/// through all units, from 0.
#[derive(Clone, Copy, Debug, PartialEq, Eq)]
pub struct UserRun {
    /// The first of them.
    pub first: u32,
    /// The first part after them.
    pub end: u32,
    /// How often each of them uses the class.
    pub uses: u32,
}

// Whether a resource is marked.
pub(crate) fn is_marked(marks: &[bool], resource: u32) -> bool {
    let at = resource as usize;
    if at < marks.len() { marks[at] } else { false }
}

// Sets the mark of a resource, or takes it away.
pub(crate) fn set_mark(marks: &mut [bool], resource: u32, mark: bool) {
    let at = resource as usize;
    if at < marks.len() {
        marks[at] = mark;
    }
}
