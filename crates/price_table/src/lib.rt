//! Price tables and the exact Lagrangian bound by them (Geoffrion 1974, "Lagrangean relaxation for
//! integer programming"). Who checks a proof of others stands on this crate and on nothing that
//! searches.
//!
//! A table prices the parts of each unit once, so that an alternative costs two look-ups: by the
//! prices alone where they are few, else by sums over all resources. A bound takes one step an
//! alternative in range; kept totals take as many for the one unit whose range changes.
#![tactic(auto)]

mod bounds;
mod closing;
mod few;
mod folded;
mod strips;
mod tables;
mod totals;

pub use bounds::{Least, bound};
pub use closing::closes;
pub use strips::StripPrices;
pub use tables::{PriceTable, price_table, push_tables, tables_of};
pub use totals::{Totals, push_totals, set_kept, totals_of};
