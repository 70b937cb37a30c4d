// Pairs of stations and their places.
ghost use Rattle.std.specs.Prelude.{◌≡◌, ◌<◌, ◌≤◌, MatchOption};
ghost use Rattle.code.specs.Places.{pair_place, PairAt};

// Two stations, or one with itself, the larger first.
#[derive(Clone, Copy, Debug, PartialEq, Eq)]
pub struct Pair {
    pub larger: u8,
    pub smaller: u8,
}

// The pair at each place. A table that is written out, by a rule of the project.
static PAIRS: [Pair; 496] = [
    Pair {
        larger: 0,
        smaller: 0,
    },
    Pair {
        larger: 1,
        smaller: 0,
    },
    Pair {
        larger: 1,
        smaller: 1,
    },
    Pair {
        larger: 2,
        smaller: 0,
    },
    Pair {
        larger: 2,
        smaller: 1,
    },
    Pair {
        larger: 2,
        smaller: 2,
    },
    Pair {
        larger: 3,
        smaller: 0,
    },
    Pair {
        larger: 3,
        smaller: 1,
    },
    Pair {
        larger: 3,
        smaller: 2,
    },
    Pair {
        larger: 3,
        smaller: 3,
    },
    Pair {
        larger: 4,
        smaller: 0,
    },
    Pair {
        larger: 4,
        smaller: 1,
    },
    Pair {
        larger: 4,
        smaller: 2,
    },
    Pair {
        larger: 4,
        smaller: 3,
    },
    Pair {
        larger: 4,
        smaller: 4,
    },
    Pair {
        larger: 5,
        smaller: 0,
    },
    Pair {
        larger: 5,
        smaller: 1,
    },
    Pair {
        larger: 5,
        smaller: 2,
    },
    Pair {
        larger: 5,
        smaller: 3,
    },
    Pair {
        larger: 5,
        smaller: 4,
    },
    Pair {
        larger: 5,
        smaller: 5,
    },
    Pair {
        larger: 6,
        smaller: 0,
    },
    Pair {
        larger: 6,
        smaller: 1,
    },
    Pair {
        larger: 6,
        smaller: 2,
    },
    Pair {
        larger: 6,
        smaller: 3,
    },
    Pair {
        larger: 6,
        smaller: 4,
    },
    Pair {
        larger: 6,
        smaller: 5,
    },
    Pair {
        larger: 6,
        smaller: 6,
    },
    Pair {
        larger: 7,
        smaller: 0,
    },
    Pair {
        larger: 7,
        smaller: 1,
    },
    Pair {
        larger: 7,
        smaller: 2,
    },
    Pair {
        larger: 7,
        smaller: 3,
    },
    Pair {
        larger: 7,
        smaller: 4,
    },
    Pair {
        larger: 7,
        smaller: 5,
    },
    Pair {
        larger: 7,
        smaller: 6,
    },
    Pair {
        larger: 7,
        smaller: 7,
    },
    Pair {
        larger: 8,
        smaller: 0,
    },
    Pair {
        larger: 8,
        smaller: 1,
    },
    Pair {
        larger: 8,
        smaller: 2,
    },
    Pair {
        larger: 8,
        smaller: 3,
    },
    Pair {
        larger: 8,
        smaller: 4,
    },
    Pair {
        larger: 8,
        smaller: 5,
    },
    Pair {
        larger: 8,
        smaller: 6,
    },
    Pair {
        larger: 8,
        smaller: 7,
    },
    Pair {
        larger: 8,
        smaller: 8,
    },
    Pair {
        larger: 9,
        smaller: 0,
    },
    Pair {
        larger: 9,
        smaller: 1,
    },
    Pair {
        larger: 9,
        smaller: 2,
    },
    Pair {
        larger: 9,
        smaller: 3,
    },
    Pair {
        larger: 9,
        smaller: 4,
    },
    Pair {
        larger: 9,
        smaller: 5,
    },
    Pair {
        larger: 9,
        smaller: 6,
    },
    Pair {
        larger: 9,
        smaller: 7,
    },
    Pair {
        larger: 9,
        smaller: 8,
    },
    Pair {
        larger: 9,
        smaller: 9,
    },
    Pair {
        larger: 10,
        smaller: 0,
    },
    Pair {
        larger: 10,
        smaller: 1,
    },
    Pair {
        larger: 10,
        smaller: 2,
    },
    Pair {
        larger: 10,
        smaller: 3,
    },
    Pair {
        larger: 10,
        smaller: 4,
    },
    Pair {
        larger: 10,
        smaller: 5,
    },
    Pair {
        larger: 10,
        smaller: 6,
    },
    Pair {
        larger: 10,
        smaller: 7,
    },
    Pair {
        larger: 10,
        smaller: 8,
    },
    Pair {
        larger: 10,
        smaller: 9,
    },
    Pair {
        larger: 10,
        smaller: 10,
    },
    Pair {
        larger: 11,
        smaller: 0,
    },
    Pair {
        larger: 11,
        smaller: 1,
    },
    Pair {
        larger: 11,
        smaller: 2,
    },
    Pair {
        larger: 11,
        smaller: 3,
    },
    Pair {
        larger: 11,
        smaller: 4,
    },
    Pair {
        larger: 11,
        smaller: 5,
    },
    Pair {
        larger: 11,
        smaller: 6,
    },
    Pair {
        larger: 11,
        smaller: 7,
    },
    Pair {
        larger: 11,
        smaller: 8,
    },
    Pair {
        larger: 11,
        smaller: 9,
    },
    Pair {
        larger: 11,
        smaller: 10,
    },
    Pair {
        larger: 11,
        smaller: 11,
    },
    Pair {
        larger: 12,
        smaller: 0,
    },
    Pair {
        larger: 12,
        smaller: 1,
    },
    Pair {
        larger: 12,
        smaller: 2,
    },
    Pair {
        larger: 12,
        smaller: 3,
    },
    Pair {
        larger: 12,
        smaller: 4,
    },
    Pair {
        larger: 12,
        smaller: 5,
    },
    Pair {
        larger: 12,
        smaller: 6,
    },
    Pair {
        larger: 12,
        smaller: 7,
    },
    Pair {
        larger: 12,
        smaller: 8,
    },
    Pair {
        larger: 12,
        smaller: 9,
    },
    Pair {
        larger: 12,
        smaller: 10,
    },
    Pair {
        larger: 12,
        smaller: 11,
    },
    Pair {
        larger: 12,
        smaller: 12,
    },
    Pair {
        larger: 13,
        smaller: 0,
    },
    Pair {
        larger: 13,
        smaller: 1,
    },
    Pair {
        larger: 13,
        smaller: 2,
    },
    Pair {
        larger: 13,
        smaller: 3,
    },
    Pair {
        larger: 13,
        smaller: 4,
    },
    Pair {
        larger: 13,
        smaller: 5,
    },
    Pair {
        larger: 13,
        smaller: 6,
    },
    Pair {
        larger: 13,
        smaller: 7,
    },
    Pair {
        larger: 13,
        smaller: 8,
    },
    Pair {
        larger: 13,
        smaller: 9,
    },
    Pair {
        larger: 13,
        smaller: 10,
    },
    Pair {
        larger: 13,
        smaller: 11,
    },
    Pair {
        larger: 13,
        smaller: 12,
    },
    Pair {
        larger: 13,
        smaller: 13,
    },
    Pair {
        larger: 14,
        smaller: 0,
    },
    Pair {
        larger: 14,
        smaller: 1,
    },
    Pair {
        larger: 14,
        smaller: 2,
    },
    Pair {
        larger: 14,
        smaller: 3,
    },
    Pair {
        larger: 14,
        smaller: 4,
    },
    Pair {
        larger: 14,
        smaller: 5,
    },
    Pair {
        larger: 14,
        smaller: 6,
    },
    Pair {
        larger: 14,
        smaller: 7,
    },
    Pair {
        larger: 14,
        smaller: 8,
    },
    Pair {
        larger: 14,
        smaller: 9,
    },
    Pair {
        larger: 14,
        smaller: 10,
    },
    Pair {
        larger: 14,
        smaller: 11,
    },
    Pair {
        larger: 14,
        smaller: 12,
    },
    Pair {
        larger: 14,
        smaller: 13,
    },
    Pair {
        larger: 14,
        smaller: 14,
    },
    Pair {
        larger: 15,
        smaller: 0,
    },
    Pair {
        larger: 15,
        smaller: 1,
    },
    Pair {
        larger: 15,
        smaller: 2,
    },
    Pair {
        larger: 15,
        smaller: 3,
    },
    Pair {
        larger: 15,
        smaller: 4,
    },
    Pair {
        larger: 15,
        smaller: 5,
    },
    Pair {
        larger: 15,
        smaller: 6,
    },
    Pair {
        larger: 15,
        smaller: 7,
    },
    Pair {
        larger: 15,
        smaller: 8,
    },
    Pair {
        larger: 15,
        smaller: 9,
    },
    Pair {
        larger: 15,
        smaller: 10,
    },
    Pair {
        larger: 15,
        smaller: 11,
    },
    Pair {
        larger: 15,
        smaller: 12,
    },
    Pair {
        larger: 15,
        smaller: 13,
    },
    Pair {
        larger: 15,
        smaller: 14,
    },
    Pair {
        larger: 15,
        smaller: 15,
    },
    Pair {
        larger: 16,
        smaller: 0,
    },
    Pair {
        larger: 16,
        smaller: 1,
    },
    Pair {
        larger: 16,
        smaller: 2,
    },
    Pair {
        larger: 16,
        smaller: 3,
    },
    Pair {
        larger: 16,
        smaller: 4,
    },
    Pair {
        larger: 16,
        smaller: 5,
    },
    Pair {
        larger: 16,
        smaller: 6,
    },
    Pair {
        larger: 16,
        smaller: 7,
    },
    Pair {
        larger: 16,
        smaller: 8,
    },
    Pair {
        larger: 16,
        smaller: 9,
    },
    Pair {
        larger: 16,
        smaller: 10,
    },
    Pair {
        larger: 16,
        smaller: 11,
    },
    Pair {
        larger: 16,
        smaller: 12,
    },
    Pair {
        larger: 16,
        smaller: 13,
    },
    Pair {
        larger: 16,
        smaller: 14,
    },
    Pair {
        larger: 16,
        smaller: 15,
    },
    Pair {
        larger: 16,
        smaller: 16,
    },
    Pair {
        larger: 17,
        smaller: 0,
    },
    Pair {
        larger: 17,
        smaller: 1,
    },
    Pair {
        larger: 17,
        smaller: 2,
    },
    Pair {
        larger: 17,
        smaller: 3,
    },
    Pair {
        larger: 17,
        smaller: 4,
    },
    Pair {
        larger: 17,
        smaller: 5,
    },
    Pair {
        larger: 17,
        smaller: 6,
    },
    Pair {
        larger: 17,
        smaller: 7,
    },
    Pair {
        larger: 17,
        smaller: 8,
    },
    Pair {
        larger: 17,
        smaller: 9,
    },
    Pair {
        larger: 17,
        smaller: 10,
    },
    Pair {
        larger: 17,
        smaller: 11,
    },
    Pair {
        larger: 17,
        smaller: 12,
    },
    Pair {
        larger: 17,
        smaller: 13,
    },
    Pair {
        larger: 17,
        smaller: 14,
    },
    Pair {
        larger: 17,
        smaller: 15,
    },
    Pair {
        larger: 17,
        smaller: 16,
    },
    Pair {
        larger: 17,
        smaller: 17,
    },
    Pair {
        larger: 18,
        smaller: 0,
    },
    Pair {
        larger: 18,
        smaller: 1,
    },
    Pair {
        larger: 18,
        smaller: 2,
    },
    Pair {
        larger: 18,
        smaller: 3,
    },
    Pair {
        larger: 18,
        smaller: 4,
    },
    Pair {
        larger: 18,
        smaller: 5,
    },
    Pair {
        larger: 18,
        smaller: 6,
    },
    Pair {
        larger: 18,
        smaller: 7,
    },
    Pair {
        larger: 18,
        smaller: 8,
    },
    Pair {
        larger: 18,
        smaller: 9,
    },
    Pair {
        larger: 18,
        smaller: 10,
    },
    Pair {
        larger: 18,
        smaller: 11,
    },
    Pair {
        larger: 18,
        smaller: 12,
    },
    Pair {
        larger: 18,
        smaller: 13,
    },
    Pair {
        larger: 18,
        smaller: 14,
    },
    Pair {
        larger: 18,
        smaller: 15,
    },
    Pair {
        larger: 18,
        smaller: 16,
    },
    Pair {
        larger: 18,
        smaller: 17,
    },
    Pair {
        larger: 18,
        smaller: 18,
    },
    Pair {
        larger: 19,
        smaller: 0,
    },
    Pair {
        larger: 19,
        smaller: 1,
    },
    Pair {
        larger: 19,
        smaller: 2,
    },
    Pair {
        larger: 19,
        smaller: 3,
    },
    Pair {
        larger: 19,
        smaller: 4,
    },
    Pair {
        larger: 19,
        smaller: 5,
    },
    Pair {
        larger: 19,
        smaller: 6,
    },
    Pair {
        larger: 19,
        smaller: 7,
    },
    Pair {
        larger: 19,
        smaller: 8,
    },
    Pair {
        larger: 19,
        smaller: 9,
    },
    Pair {
        larger: 19,
        smaller: 10,
    },
    Pair {
        larger: 19,
        smaller: 11,
    },
    Pair {
        larger: 19,
        smaller: 12,
    },
    Pair {
        larger: 19,
        smaller: 13,
    },
    Pair {
        larger: 19,
        smaller: 14,
    },
    Pair {
        larger: 19,
        smaller: 15,
    },
    Pair {
        larger: 19,
        smaller: 16,
    },
    Pair {
        larger: 19,
        smaller: 17,
    },
    Pair {
        larger: 19,
        smaller: 18,
    },
    Pair {
        larger: 19,
        smaller: 19,
    },
    Pair {
        larger: 20,
        smaller: 0,
    },
    Pair {
        larger: 20,
        smaller: 1,
    },
    Pair {
        larger: 20,
        smaller: 2,
    },
    Pair {
        larger: 20,
        smaller: 3,
    },
    Pair {
        larger: 20,
        smaller: 4,
    },
    Pair {
        larger: 20,
        smaller: 5,
    },
    Pair {
        larger: 20,
        smaller: 6,
    },
    Pair {
        larger: 20,
        smaller: 7,
    },
    Pair {
        larger: 20,
        smaller: 8,
    },
    Pair {
        larger: 20,
        smaller: 9,
    },
    Pair {
        larger: 20,
        smaller: 10,
    },
    Pair {
        larger: 20,
        smaller: 11,
    },
    Pair {
        larger: 20,
        smaller: 12,
    },
    Pair {
        larger: 20,
        smaller: 13,
    },
    Pair {
        larger: 20,
        smaller: 14,
    },
    Pair {
        larger: 20,
        smaller: 15,
    },
    Pair {
        larger: 20,
        smaller: 16,
    },
    Pair {
        larger: 20,
        smaller: 17,
    },
    Pair {
        larger: 20,
        smaller: 18,
    },
    Pair {
        larger: 20,
        smaller: 19,
    },
    Pair {
        larger: 20,
        smaller: 20,
    },
    Pair {
        larger: 21,
        smaller: 0,
    },
    Pair {
        larger: 21,
        smaller: 1,
    },
    Pair {
        larger: 21,
        smaller: 2,
    },
    Pair {
        larger: 21,
        smaller: 3,
    },
    Pair {
        larger: 21,
        smaller: 4,
    },
    Pair {
        larger: 21,
        smaller: 5,
    },
    Pair {
        larger: 21,
        smaller: 6,
    },
    Pair {
        larger: 21,
        smaller: 7,
    },
    Pair {
        larger: 21,
        smaller: 8,
    },
    Pair {
        larger: 21,
        smaller: 9,
    },
    Pair {
        larger: 21,
        smaller: 10,
    },
    Pair {
        larger: 21,
        smaller: 11,
    },
    Pair {
        larger: 21,
        smaller: 12,
    },
    Pair {
        larger: 21,
        smaller: 13,
    },
    Pair {
        larger: 21,
        smaller: 14,
    },
    Pair {
        larger: 21,
        smaller: 15,
    },
    Pair {
        larger: 21,
        smaller: 16,
    },
    Pair {
        larger: 21,
        smaller: 17,
    },
    Pair {
        larger: 21,
        smaller: 18,
    },
    Pair {
        larger: 21,
        smaller: 19,
    },
    Pair {
        larger: 21,
        smaller: 20,
    },
    Pair {
        larger: 21,
        smaller: 21,
    },
    Pair {
        larger: 22,
        smaller: 0,
    },
    Pair {
        larger: 22,
        smaller: 1,
    },
    Pair {
        larger: 22,
        smaller: 2,
    },
    Pair {
        larger: 22,
        smaller: 3,
    },
    Pair {
        larger: 22,
        smaller: 4,
    },
    Pair {
        larger: 22,
        smaller: 5,
    },
    Pair {
        larger: 22,
        smaller: 6,
    },
    Pair {
        larger: 22,
        smaller: 7,
    },
    Pair {
        larger: 22,
        smaller: 8,
    },
    Pair {
        larger: 22,
        smaller: 9,
    },
    Pair {
        larger: 22,
        smaller: 10,
    },
    Pair {
        larger: 22,
        smaller: 11,
    },
    Pair {
        larger: 22,
        smaller: 12,
    },
    Pair {
        larger: 22,
        smaller: 13,
    },
    Pair {
        larger: 22,
        smaller: 14,
    },
    Pair {
        larger: 22,
        smaller: 15,
    },
    Pair {
        larger: 22,
        smaller: 16,
    },
    Pair {
        larger: 22,
        smaller: 17,
    },
    Pair {
        larger: 22,
        smaller: 18,
    },
    Pair {
        larger: 22,
        smaller: 19,
    },
    Pair {
        larger: 22,
        smaller: 20,
    },
    Pair {
        larger: 22,
        smaller: 21,
    },
    Pair {
        larger: 22,
        smaller: 22,
    },
    Pair {
        larger: 23,
        smaller: 0,
    },
    Pair {
        larger: 23,
        smaller: 1,
    },
    Pair {
        larger: 23,
        smaller: 2,
    },
    Pair {
        larger: 23,
        smaller: 3,
    },
    Pair {
        larger: 23,
        smaller: 4,
    },
    Pair {
        larger: 23,
        smaller: 5,
    },
    Pair {
        larger: 23,
        smaller: 6,
    },
    Pair {
        larger: 23,
        smaller: 7,
    },
    Pair {
        larger: 23,
        smaller: 8,
    },
    Pair {
        larger: 23,
        smaller: 9,
    },
    Pair {
        larger: 23,
        smaller: 10,
    },
    Pair {
        larger: 23,
        smaller: 11,
    },
    Pair {
        larger: 23,
        smaller: 12,
    },
    Pair {
        larger: 23,
        smaller: 13,
    },
    Pair {
        larger: 23,
        smaller: 14,
    },
    Pair {
        larger: 23,
        smaller: 15,
    },
    Pair {
        larger: 23,
        smaller: 16,
    },
    Pair {
        larger: 23,
        smaller: 17,
    },
    Pair {
        larger: 23,
        smaller: 18,
    },
    Pair {
        larger: 23,
        smaller: 19,
    },
    Pair {
        larger: 23,
        smaller: 20,
    },
    Pair {
        larger: 23,
        smaller: 21,
    },
    Pair {
        larger: 23,
        smaller: 22,
    },
    Pair {
        larger: 23,
        smaller: 23,
    },
    Pair {
        larger: 24,
        smaller: 0,
    },
    Pair {
        larger: 24,
        smaller: 1,
    },
    Pair {
        larger: 24,
        smaller: 2,
    },
    Pair {
        larger: 24,
        smaller: 3,
    },
    Pair {
        larger: 24,
        smaller: 4,
    },
    Pair {
        larger: 24,
        smaller: 5,
    },
    Pair {
        larger: 24,
        smaller: 6,
    },
    Pair {
        larger: 24,
        smaller: 7,
    },
    Pair {
        larger: 24,
        smaller: 8,
    },
    Pair {
        larger: 24,
        smaller: 9,
    },
    Pair {
        larger: 24,
        smaller: 10,
    },
    Pair {
        larger: 24,
        smaller: 11,
    },
    Pair {
        larger: 24,
        smaller: 12,
    },
    Pair {
        larger: 24,
        smaller: 13,
    },
    Pair {
        larger: 24,
        smaller: 14,
    },
    Pair {
        larger: 24,
        smaller: 15,
    },
    Pair {
        larger: 24,
        smaller: 16,
    },
    Pair {
        larger: 24,
        smaller: 17,
    },
    Pair {
        larger: 24,
        smaller: 18,
    },
    Pair {
        larger: 24,
        smaller: 19,
    },
    Pair {
        larger: 24,
        smaller: 20,
    },
    Pair {
        larger: 24,
        smaller: 21,
    },
    Pair {
        larger: 24,
        smaller: 22,
    },
    Pair {
        larger: 24,
        smaller: 23,
    },
    Pair {
        larger: 24,
        smaller: 24,
    },
    Pair {
        larger: 25,
        smaller: 0,
    },
    Pair {
        larger: 25,
        smaller: 1,
    },
    Pair {
        larger: 25,
        smaller: 2,
    },
    Pair {
        larger: 25,
        smaller: 3,
    },
    Pair {
        larger: 25,
        smaller: 4,
    },
    Pair {
        larger: 25,
        smaller: 5,
    },
    Pair {
        larger: 25,
        smaller: 6,
    },
    Pair {
        larger: 25,
        smaller: 7,
    },
    Pair {
        larger: 25,
        smaller: 8,
    },
    Pair {
        larger: 25,
        smaller: 9,
    },
    Pair {
        larger: 25,
        smaller: 10,
    },
    Pair {
        larger: 25,
        smaller: 11,
    },
    Pair {
        larger: 25,
        smaller: 12,
    },
    Pair {
        larger: 25,
        smaller: 13,
    },
    Pair {
        larger: 25,
        smaller: 14,
    },
    Pair {
        larger: 25,
        smaller: 15,
    },
    Pair {
        larger: 25,
        smaller: 16,
    },
    Pair {
        larger: 25,
        smaller: 17,
    },
    Pair {
        larger: 25,
        smaller: 18,
    },
    Pair {
        larger: 25,
        smaller: 19,
    },
    Pair {
        larger: 25,
        smaller: 20,
    },
    Pair {
        larger: 25,
        smaller: 21,
    },
    Pair {
        larger: 25,
        smaller: 22,
    },
    Pair {
        larger: 25,
        smaller: 23,
    },
    Pair {
        larger: 25,
        smaller: 24,
    },
    Pair {
        larger: 25,
        smaller: 25,
    },
    Pair {
        larger: 26,
        smaller: 0,
    },
    Pair {
        larger: 26,
        smaller: 1,
    },
    Pair {
        larger: 26,
        smaller: 2,
    },
    Pair {
        larger: 26,
        smaller: 3,
    },
    Pair {
        larger: 26,
        smaller: 4,
    },
    Pair {
        larger: 26,
        smaller: 5,
    },
    Pair {
        larger: 26,
        smaller: 6,
    },
    Pair {
        larger: 26,
        smaller: 7,
    },
    Pair {
        larger: 26,
        smaller: 8,
    },
    Pair {
        larger: 26,
        smaller: 9,
    },
    Pair {
        larger: 26,
        smaller: 10,
    },
    Pair {
        larger: 26,
        smaller: 11,
    },
    Pair {
        larger: 26,
        smaller: 12,
    },
    Pair {
        larger: 26,
        smaller: 13,
    },
    Pair {
        larger: 26,
        smaller: 14,
    },
    Pair {
        larger: 26,
        smaller: 15,
    },
    Pair {
        larger: 26,
        smaller: 16,
    },
    Pair {
        larger: 26,
        smaller: 17,
    },
    Pair {
        larger: 26,
        smaller: 18,
    },
    Pair {
        larger: 26,
        smaller: 19,
    },
    Pair {
        larger: 26,
        smaller: 20,
    },
    Pair {
        larger: 26,
        smaller: 21,
    },
    Pair {
        larger: 26,
        smaller: 22,
    },
    Pair {
        larger: 26,
        smaller: 23,
    },
    Pair {
        larger: 26,
        smaller: 24,
    },
    Pair {
        larger: 26,
        smaller: 25,
    },
    Pair {
        larger: 26,
        smaller: 26,
    },
    Pair {
        larger: 27,
        smaller: 0,
    },
    Pair {
        larger: 27,
        smaller: 1,
    },
    Pair {
        larger: 27,
        smaller: 2,
    },
    Pair {
        larger: 27,
        smaller: 3,
    },
    Pair {
        larger: 27,
        smaller: 4,
    },
    Pair {
        larger: 27,
        smaller: 5,
    },
    Pair {
        larger: 27,
        smaller: 6,
    },
    Pair {
        larger: 27,
        smaller: 7,
    },
    Pair {
        larger: 27,
        smaller: 8,
    },
    Pair {
        larger: 27,
        smaller: 9,
    },
    Pair {
        larger: 27,
        smaller: 10,
    },
    Pair {
        larger: 27,
        smaller: 11,
    },
    Pair {
        larger: 27,
        smaller: 12,
    },
    Pair {
        larger: 27,
        smaller: 13,
    },
    Pair {
        larger: 27,
        smaller: 14,
    },
    Pair {
        larger: 27,
        smaller: 15,
    },
    Pair {
        larger: 27,
        smaller: 16,
    },
    Pair {
        larger: 27,
        smaller: 17,
    },
    Pair {
        larger: 27,
        smaller: 18,
    },
    Pair {
        larger: 27,
        smaller: 19,
    },
    Pair {
        larger: 27,
        smaller: 20,
    },
    Pair {
        larger: 27,
        smaller: 21,
    },
    Pair {
        larger: 27,
        smaller: 22,
    },
    Pair {
        larger: 27,
        smaller: 23,
    },
    Pair {
        larger: 27,
        smaller: 24,
    },
    Pair {
        larger: 27,
        smaller: 25,
    },
    Pair {
        larger: 27,
        smaller: 26,
    },
    Pair {
        larger: 27,
        smaller: 27,
    },
    Pair {
        larger: 28,
        smaller: 0,
    },
    Pair {
        larger: 28,
        smaller: 1,
    },
    Pair {
        larger: 28,
        smaller: 2,
    },
    Pair {
        larger: 28,
        smaller: 3,
    },
    Pair {
        larger: 28,
        smaller: 4,
    },
    Pair {
        larger: 28,
        smaller: 5,
    },
    Pair {
        larger: 28,
        smaller: 6,
    },
    Pair {
        larger: 28,
        smaller: 7,
    },
    Pair {
        larger: 28,
        smaller: 8,
    },
    Pair {
        larger: 28,
        smaller: 9,
    },
    Pair {
        larger: 28,
        smaller: 10,
    },
    Pair {
        larger: 28,
        smaller: 11,
    },
    Pair {
        larger: 28,
        smaller: 12,
    },
    Pair {
        larger: 28,
        smaller: 13,
    },
    Pair {
        larger: 28,
        smaller: 14,
    },
    Pair {
        larger: 28,
        smaller: 15,
    },
    Pair {
        larger: 28,
        smaller: 16,
    },
    Pair {
        larger: 28,
        smaller: 17,
    },
    Pair {
        larger: 28,
        smaller: 18,
    },
    Pair {
        larger: 28,
        smaller: 19,
    },
    Pair {
        larger: 28,
        smaller: 20,
    },
    Pair {
        larger: 28,
        smaller: 21,
    },
    Pair {
        larger: 28,
        smaller: 22,
    },
    Pair {
        larger: 28,
        smaller: 23,
    },
    Pair {
        larger: 28,
        smaller: 24,
    },
    Pair {
        larger: 28,
        smaller: 25,
    },
    Pair {
        larger: 28,
        smaller: 26,
    },
    Pair {
        larger: 28,
        smaller: 27,
    },
    Pair {
        larger: 28,
        smaller: 28,
    },
    Pair {
        larger: 29,
        smaller: 0,
    },
    Pair {
        larger: 29,
        smaller: 1,
    },
    Pair {
        larger: 29,
        smaller: 2,
    },
    Pair {
        larger: 29,
        smaller: 3,
    },
    Pair {
        larger: 29,
        smaller: 4,
    },
    Pair {
        larger: 29,
        smaller: 5,
    },
    Pair {
        larger: 29,
        smaller: 6,
    },
    Pair {
        larger: 29,
        smaller: 7,
    },
    Pair {
        larger: 29,
        smaller: 8,
    },
    Pair {
        larger: 29,
        smaller: 9,
    },
    Pair {
        larger: 29,
        smaller: 10,
    },
    Pair {
        larger: 29,
        smaller: 11,
    },
    Pair {
        larger: 29,
        smaller: 12,
    },
    Pair {
        larger: 29,
        smaller: 13,
    },
    Pair {
        larger: 29,
        smaller: 14,
    },
    Pair {
        larger: 29,
        smaller: 15,
    },
    Pair {
        larger: 29,
        smaller: 16,
    },
    Pair {
        larger: 29,
        smaller: 17,
    },
    Pair {
        larger: 29,
        smaller: 18,
    },
    Pair {
        larger: 29,
        smaller: 19,
    },
    Pair {
        larger: 29,
        smaller: 20,
    },
    Pair {
        larger: 29,
        smaller: 21,
    },
    Pair {
        larger: 29,
        smaller: 22,
    },
    Pair {
        larger: 29,
        smaller: 23,
    },
    Pair {
        larger: 29,
        smaller: 24,
    },
    Pair {
        larger: 29,
        smaller: 25,
    },
    Pair {
        larger: 29,
        smaller: 26,
    },
    Pair {
        larger: 29,
        smaller: 27,
    },
    Pair {
        larger: 29,
        smaller: 28,
    },
    Pair {
        larger: 29,
        smaller: 29,
    },
    Pair {
        larger: 30,
        smaller: 0,
    },
    Pair {
        larger: 30,
        smaller: 1,
    },
    Pair {
        larger: 30,
        smaller: 2,
    },
    Pair {
        larger: 30,
        smaller: 3,
    },
    Pair {
        larger: 30,
        smaller: 4,
    },
    Pair {
        larger: 30,
        smaller: 5,
    },
    Pair {
        larger: 30,
        smaller: 6,
    },
    Pair {
        larger: 30,
        smaller: 7,
    },
    Pair {
        larger: 30,
        smaller: 8,
    },
    Pair {
        larger: 30,
        smaller: 9,
    },
    Pair {
        larger: 30,
        smaller: 10,
    },
    Pair {
        larger: 30,
        smaller: 11,
    },
    Pair {
        larger: 30,
        smaller: 12,
    },
    Pair {
        larger: 30,
        smaller: 13,
    },
    Pair {
        larger: 30,
        smaller: 14,
    },
    Pair {
        larger: 30,
        smaller: 15,
    },
    Pair {
        larger: 30,
        smaller: 16,
    },
    Pair {
        larger: 30,
        smaller: 17,
    },
    Pair {
        larger: 30,
        smaller: 18,
    },
    Pair {
        larger: 30,
        smaller: 19,
    },
    Pair {
        larger: 30,
        smaller: 20,
    },
    Pair {
        larger: 30,
        smaller: 21,
    },
    Pair {
        larger: 30,
        smaller: 22,
    },
    Pair {
        larger: 30,
        smaller: 23,
    },
    Pair {
        larger: 30,
        smaller: 24,
    },
    Pair {
        larger: 30,
        smaller: 25,
    },
    Pair {
        larger: 30,
        smaller: 26,
    },
    Pair {
        larger: 30,
        smaller: 27,
    },
    Pair {
        larger: 30,
        smaller: 28,
    },
    Pair {
        larger: 30,
        smaller: 29,
    },
    Pair {
        larger: 30,
        smaller: 30,
    },
];

// The place of a pair, its stations in either order.
pub fn place(a: u8, b: u8) -> usize
    ensures { result ≡ pair_place a b }
{
    let larger = usize::from(a.max(b));
    let smaller = usize::from(a.min(b));
    larger * (larger + 1) / 2 + smaller
}

// The pair at a place, for each of the 496 places of 31 stations.
pub fn pair_at(place: usize) -> Option<Pair>
    ensures { MatchOption result (496 ≤ place) (λ x. (place < 496) × PairAt place x) }
{
    PAIRS.get(place).copied()
}
