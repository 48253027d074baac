//! The parts of a schedule that several files spell alike: times of the day, days of operation
//! (SSIM), and kinds of movements.
#![tactic(auto)]

mod days;
mod kinds;
pub mod laws;
mod times;

pub use days::{places_of, read_places, read_weekdays};
pub use kinds::{kind_text, read_kind};
pub use times::{read_time, read_two_digits};
