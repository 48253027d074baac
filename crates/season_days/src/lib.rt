//! The calendar of a season: its civil dates, counted from 0, their weekdays, and the dates of a
//! period. The types of a capacity declaration stand here too.
#![tactic(auto)]

mod dates;
mod day;
mod declaration;
pub mod laws;
mod periods;
mod season;
mod windows;

pub use day::{Cut, Day, DayFault, Period};
pub use declaration::{
    Declaration, HIGHEST_NIGHT_LIMIT, HIGHEST_REFUSAL_PRICE, HIGHEST_SHARE, HIGHEST_WINDOW_LIMIT,
    Kind, MINUTES_OF_DAY, MOST_RULES, MOST_WINDOWS, Night, Rule, RuleList,
};
pub use season::{Half, MOST_DATES, Season};
