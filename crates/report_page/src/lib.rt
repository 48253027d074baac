//! The page of a report: one HTML file that shows what the text of a report says.
//!
//! It is a function of the report's bytes and of nothing else. It has no script and loads nothing;
//! what stands in the report is escaped, so that none of it is read as markup.
#![tactic(auto)]

mod charts;
mod escape;
mod fill;
pub mod laws;
mod layout;
mod number;
mod page;
mod rows;
mod series;
mod words;

pub use layout::Section;
pub use page::page_text;
