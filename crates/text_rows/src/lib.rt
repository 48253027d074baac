//! Tests of the text crates, of the outside with its links and disks, of the journal, of the words
//! of a command line and of generated seasons: worked rows, as tables of text.
#![tactic(auto)]

#[cfg(test)]
mod calendar_rows;
#[cfg(test)]
mod capacity_rows;
#[cfg(test)]
mod disk_rows;
#[cfg(test)]
mod generated_rows;
#[cfg(test)]
mod journal_rows;
#[cfg(test)]
mod link_rows;
#[cfg(test)]
mod message_rows;
#[cfg(test)]
mod outside_rows;
#[cfg(test)]
mod rows;
#[cfg(test)]
mod schedule_rows;
#[cfg(test)]
mod slot_text_rows;
#[cfg(test)]
mod word_rows;
