//! The run of amendments: messages of asks answered one after the other on a book.
#![tactic(auto)]

mod asked;
mod run;

pub use run::{Amended, amend_messages, first_header};
