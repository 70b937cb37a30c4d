// The tickets in a rack.
use serve::Sort;

// How many tickets of one sort there are of each station.
#[derive(Default, Drop)]
pub struct Held {
    counts: [u32; 256],
}

impl Held {
    pub fn has(&self, s: u8) -> bool {
        self.counts[usize::from(s)] > 0
    }

    pub fn add(&mut self, s: u8) {
        let count = &mut self.counts[usize::from(s)];
        *count = count.saturating_add(1);
    }

    pub fn remove(&mut self, s: u8) {
        let count = &mut self.counts[usize::from(s)];
        *count = count.saturating_sub(1);
    }

    // A station with a ticket, the next from s on.
    pub fn find_from(&self, s: u8) -> Option<u8> {
        (0..=255)
            .map(|k| s.wrapping_add(k))
            .find(|found| self.has(*found))
    }
}

#[derive(Default, Drop)]
pub struct Tickets {
    pub open: Held,
    pub full: Held,
}

impl Tickets {
    // Those of one sort.
    pub fn of(&self, sort: Sort) -> &Held {
        match sort {
            Sort::Open => &self.open,
            Sort::Full => &self.full,
        }
    }

    pub fn of_mut(&mut self, sort: Sort) -> &mut Held {
        match sort {
            Sort::Open => &mut self.open,
            Sort::Full => &mut self.full,
        }
    }
}
