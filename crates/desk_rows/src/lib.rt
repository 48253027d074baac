//! Tests of the desk's call: worked rows, and one case for each answer, as scripts.
#![tactic(auto)]

#[cfg(test)]
mod allocate_rows;
#[cfg(test)]
mod amend_rows;
#[cfg(test)]
mod check_rows;
#[cfg(test)]
mod damage_rows;
#[cfg(test)]
mod desk_calls;
#[cfg(test)]
mod play;
#[cfg(test)]
mod report_rows;
#[cfg(test)]
mod resume_rows;
#[cfg(test)]
mod serve_rows;
#[cfg(test)]
mod texts;
#[cfg(test)]
mod tie_rows;
#[cfg(test)]
mod usage_rows;
#[cfg(test)]
mod waiting_rows;
