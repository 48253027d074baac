//! Lines of reports on a season's capacity: what was declared, where a load is above a limit, and
//! the greatest loads; and the words of which such lines are made.
#![tactic(auto)]

mod appends;
mod demand;
mod excess;
mod heads;
pub mod laws;
mod least;
mod names;
mod profile;

pub use appends::{put, put_name, put_quoted, put_resource, put_tagged, put_time, put_times};
pub use demand::{demand_lines, over_lines, put_over};
pub use heads::put_head;
pub use names::WindowName;
pub use profile::put_profile;
