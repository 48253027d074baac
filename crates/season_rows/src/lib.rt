//! Tests of a season's crates, as tables of worked seasons: windows, units and stages, certificates
//! as text, their checks, replies, and reports.
#![tactic(auto)]

#[cfg(test)]
mod certificates;
#[cfg(test)]
mod lines;
#[cfg(test)]
mod replies;
#[cfg(test)]
mod reports;
#[cfg(test)]
mod seasons;
#[cfg(test)]
mod stages;
#[cfg(test)]
mod units;
#[cfg(test)]
mod verdicts;
#[cfg(test)]
mod windows;
