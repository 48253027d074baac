//! Replies to messages: the answer to each item in its printed lines, message by message; what is
//! received of a message, and the text of a history.
#![tactic(auto)]

mod answers;
mod asked;
mod given;
mod history;
mod received;
mod reply;
mod season;
mod states;

pub use history::history_text;
pub use received::{Received, one_received, receive};
pub use reply::{put_bad, put_reply, reply_message};
pub use season::{season_replies, units_reply};
