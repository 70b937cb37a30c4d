// The book: blocks for every pair of stations over any store for writing, stations swapped while everybody writes.
#![tactic(auto)]

mod abandons;
pub mod books;
mod checks;
mod fills;
mod opens;
mod reads;
pub mod tickets;
mod writes;

pub use books::Book;
pub use tickets::{FullTicket, OpenTicket, Ticket, TicketOf};
