//! What the lines of one stage are made of.

use capacity_windows::Windows;
use choice_problem::Problem;
use season_days::Declaration;

// The problem of a stage that has an allotment, and what earlier stages gave of each resource.
#[derive(Clone, Copy)]
pub(crate) struct Tried<'a> {
    pub(crate) declaration: &'a Declaration,
    pub(crate) windows: &'a Windows,
    pub(crate) stage: u32,
    pub(crate) problem: &'a Problem,
    pub(crate) earlier: &'a [u32],
}
