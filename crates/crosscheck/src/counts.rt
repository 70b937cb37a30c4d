// How many answers of each sort there were.
use audit::Verdict;
use faults::Fault;
use kinds::Block;
use serve::{Answer, Turn};

#[derive(Default, Drop)]
pub struct Counts {
    pub lists: usize,
    pub calls: usize,
    pub stored: usize,
    pub audits: usize,
    pub given: usize,
    pub accepted: usize,
    pub untouched: usize,
    pub not_made: usize,
    // by the fault's number, as they are printed
    pub refused: [usize; 20],
}

fn count_up(count: &mut usize) {
    *count = count.saturating_add(1);
}

impl Counts {
    fn count_refusal(&mut self, number: u8) {
        if let Some(count) = self.refused.get_mut(usize::from(number)) {
            count_up(count);
        }
    }

    fn count_answer(&mut self, answer: &Answer<Block>) {
        match answer {
            Answer::NotMade => count_up(&mut self.not_made),
            Answer::Given(_) => count_up(&mut self.given),
            Answer::Accepted => count_up(&mut self.accepted),
            Answer::Untouched => count_up(&mut self.untouched),
            Answer::Refused(fault) => self.count_refusal(fault.number()),
        }
    }

    pub fn count_list(&mut self, stored: usize, turns: &[Turn<Block>]) {
        count_up(&mut self.lists);
        self.stored = self.stored.saturating_add(stored);
        self.calls = self.calls.saturating_add(turns.len());
        for turn in turns {
            self.count_answer(&turn.answer);
        }
    }

    // The open and the audit after a list.
    pub fn count_outcome(&mut self, open: &Result<(), Fault>, audit: &Result<Verdict, Fault>) {
        if let Err(fault) = open {
            self.count_refusal(fault.number());
        }
        match audit {
            Ok(_) => count_up(&mut self.audits),
            Err(fault) => self.count_refusal(fault.number()),
        }
    }
}
