// The calls that are served. A write has a text in place of its block.
use serve::{Call, Sort};

// The work area that seven stations ask for.
const AREA: usize = 56;

fn write(a: u8, b: u8, block: &'static str) -> Call<&'static str> {
    Call::Write {
        a,
        b,
        block,
        area: AREA,
    }
}

fn read(a: u8, b: u8) -> Call<&'static str> {
    Call::Read { a, b, area: AREA }
}

fn fill(station: u8) -> Call<&'static str> {
    Call::Fill {
        station,
        area: AREA,
    }
}

// Three stations are lost, one of them while it is filled: it can be filled no further, and its ticket is kept.
pub fn too_many() -> [Call<&'static str>; 13] {
    [
        write(3, 0, "apple"),
        Call::Lose { station: 2 },
        Call::Fit { station: 2 },
        fill(2),
        fill(2),
        Call::Lose { station: 6 },
        write(2, 2, "beech"),
        Call::Lose { station: 1 },
        read(3, 0),
        read(2, 2),
        write(3, 0, "cedar"),
        fill(2),
        Call::Fit { station: 6 },
    ]
}

// Writes and reads with all stations standing, what they refuse, and the ticket of another book.
pub fn begin() -> [Call<&'static str>; 15] {
    [
        write(0, 0, "anchor"),
        write(3, 1, "buoy"),
        write(4, 2, "cable"),
        write(4, 4, "dock"),
        read(1, 3),
        read(2, 4),
        read(2, 0),
        write(5, 1, "eddy"),
        read(0, 6),
        write(7, 1, "eddy"),
        read(1, 200),
        Call::Write {
            a: 2,
            b: 1,
            block: "eddy",
            area: 55,
        },
        Call::Read {
            a: 9,
            b: 6,
            area: 0,
        },
        fill(2),
        Call::Finish { station: 2 },
    ]
}

// Station 3 is lost and swapped while everybody writes and reads; station 5 is lost meanwhile.
pub fn first_loss() -> [Call<&'static str>; 33] {
    [
        Call::Lose { station: 3 },
        Call::Lose { station: 3 },
        Call::Lose { station: 7 },
        read(3, 1),
        write(3, 1, "ebb"),
        Call::Fit { station: 4 },
        Call::Fit { station: 7 },
        Call::Fit { station: 3 },
        Call::Fit { station: 3 },
        Call::Lose { station: 3 },
        fill(3),
        Call::Fill {
            station: 3,
            area: 55,
        },
        write(3, 0, "flood"),
        fill(2),
        Call::Abandon {
            station: 2,
            sort: Sort::Open,
        },
        Call::Abandon {
            station: 2,
            sort: Sort::Open,
        },
        fill(3),
        fill(3),
        write(3, 2, "gale"),
        Call::Lose { station: 5 },
        Call::Fit { station: 5 },
        fill(3),
        write(3, 3, "haven"),
        fill(3),
        Call::Finish { station: 3 },
        fill(3),
        fill(3),
        fill(3),
        Call::Finish { station: 3 },
        read(3, 1),
        read(3, 0),
        read(2, 3),
        read(3, 3),
    ]
}

// The filling of station 5 is abandoned; then station 0 is lost too, and station 5 is filled whole.
pub fn second_loss() -> [Call<&'static str>; 19] {
    [
        Call::Fit { station: 5 },
        fill(5),
        fill(5),
        Call::Abandon {
            station: 5,
            sort: Sort::Full,
        },
        Call::Abandon {
            station: 5,
            sort: Sort::Open,
        },
        fill(5),
        write(4, 0, "isle"),
        Call::Lose { station: 0 },
        read(0, 0),
        read(4, 0),
        write(0, 0, "jetty"),
        Call::Fit { station: 5 },
        fill(5),
        fill(5),
        fill(5),
        fill(5),
        fill(5),
        fill(5),
        fill(5),
    ]
}

// With a third loss no pair can be written, and no pair of an absent station read, until station 5 stands.
pub fn third_loss() -> [Call<&'static str>; 11] {
    [
        Call::Lose { station: 4 },
        read(3, 1),
        read(4, 2),
        read(0, 0),
        write(3, 1, "kelp"),
        Call::Fit { station: 0 },
        Call::Finish { station: 5 },
        read(4, 2),
        read(0, 4),
        write(4, 2, "lock"),
        write(3, 1, "mole"),
    ]
}

// Every pair that was written, once more.
pub fn end() -> [Call<&'static str>; 9] {
    [
        read(0, 0),
        read(3, 0),
        read(3, 1),
        read(3, 2),
        read(3, 3),
        read(4, 0),
        read(4, 2),
        read(4, 4),
        read(1, 0),
    ]
}

// A station is fitted, filled and finished.
pub fn swap(station: u8) -> [Call<&'static str>; 9] {
    [
        Call::Fit { station },
        fill(station),
        fill(station),
        fill(station),
        fill(station),
        fill(station),
        fill(station),
        fill(station),
        Call::Finish { station },
    ]
}
