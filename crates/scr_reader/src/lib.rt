//! Slot clearance messages: reading and printing.
#![tactic(auto)]

mod at;
mod bytes;
mod cut;
mod fault;
mod fields;
mod fits;
mod flight;
mod groups;
mod header;
mod item_reader;
pub mod laws;
mod line;
mod line_reader;
mod message;
mod pairs;
mod period;
mod print;
mod put;
mod rows;
mod run_reader;
mod shapes;
mod stray;
mod texts;

pub use cut::cut_messages;
pub use fault::ScrFault;
pub use flight::{is_flight_ahead, read_flight};
pub use groups::read_group_with_nights;
pub use header::Header;
pub use item_reader::read_item;
pub use line::{Code, Craft, Flight, Item, Line, Stop};
pub use message::{MOST_MESSAGE_LINES, Message, MessageList, Piece, Placed, PlacedList};
pub use period::{read_month, read_period};
pub use print::{
    LONGEST_PRINTED_ITEM, LONGEST_PRINTED_LINE, print_day, print_flight, print_header, print_item,
    print_line,
};
pub use stray::StrayLine;
pub use texts::{read_all, read_message};
