// Why the comparison stops before its end.
use std::alloc::AllocError;
use std::io;
use thiserror::Error;

#[derive(Debug, Drop, Error)]
pub enum Stop {
    #[error("no memory")]
    NoMemory(#[from] AllocError),
    #[error("no output")]
    NoOutput(#[from] io::Error),
    // where the model and the library differ first
    #[error("difference: {what}, size {size}, case {case}, at {at}")]
    Differs {
        what: &'static str,
        size: u8,
        // the list of calls, or the place of the pair of stations that are out
        case: usize,
        // the call, or the place of the pair
        at: usize,
    },
}

pub fn differs(what: &'static str, size: u8, case: usize, at: usize) -> Stop {
    Stop::Differs {
        what,
        size,
        case,
        at,
    }
}
