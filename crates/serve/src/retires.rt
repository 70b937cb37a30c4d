// The end of a rack of tickets.
use crate::racks::Rack;
use book::Book;
use store::{ReadStore, WriteStore};

// Abandons every ticket of a rack, and ends it.
pub fn retire<S: WriteStore>(book: &mut Book<S>, mut rack: Rack) {
    while let Some(ticket) = rack.take_any() {
        let _ = book.abandon(ticket);
    }
    rack.end();
}
