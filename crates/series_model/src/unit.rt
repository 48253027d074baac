//! Units.

use crate::group::Group;
use scr_reader::Line;

/// What is allotted as one: a line of group F, B or N, or a historic line with the request to
/// change it, of group R or L.
#[derive(Clone, Copy, Debug, PartialEq, Eq)]
pub struct Unit {
    /// The number of its line in the file, of a pair that of the historic line.
    pub line: u32,
    /// What it asks for.
    pub group: Group,
    /// The line that asks for times: of a pair the R or L line.
    pub request: Line,
    /// Of a pair the historic line, which the request changes.
    pub historic: Option<Line>,
}
