// Refusals. Each case has a number, the layer it began in and a place; upper layers pass a fault on whole.
ghost use Rattle.std.specs.Prelude.{◌≡◌, Some, Decides};
ghost use Rattle.std.specs.Cmp.{IsPartialEquivalence};
ghost use Rattle.faults.specs.Faults.{number_of, layer_of, place_of, letter_of, same_fault, written};

use std::fmt;

// The layer in which a fault began.
#[derive(Clone, Copy, Debug, PartialEq, Eq)]
pub enum Layer {
    Record,
    Book,
    Store,
}

impl Layer {
    // The layer's letter on a fault slip.
    pub fn letter(self) -> char
        ensures { result ≡ letter_of self }
    {
        match self {
            Layer::Record => 'r',
            Layer::Book => 'b',
            Layer::Store => 's',
        }
    }
}

// One case for each refusal; where one number comes from two layers, there are two cases.
#[derive(Clone, Copy, PartialEq, Eq)]
pub enum Fault {
    // 1 b: the number is not a size
    NotASize(u8),
    // 2 b: the book was opened with a station out; the smallest
    OutAtOpen(u8),
    // 3 b: an area is too short; its length
    AreaTooShort(usize),
    // 4 s: a station number of n or more; the first such number given
    NoSuchStation(u8),
    // 5 b: a check pair where a data pair is wanted; its larger station
    CheckPair(u8),
    // 6 b: the station to be lost is absent already
    AlreadyAbsent(u8),
    // 6 s: the station to be taken out is out already
    AlreadyOut(u8),
    // 7 b: the station to be fitted is not out
    NotOut(u8),
    // 7 s: the station to be brought in is in
    AlreadyIn(u8),
    // 8 b: fit while a station is being filled; that station
    FillingUnderWay(u8),
    // 9 b: three or more stations are absent; how many
    TooManyAbsent(u8),
    // 10 b: the ticket's station is not the one being filled, or is not full; the ticket's station
    TicketRefused(u8),
    // 11 s: get or put with a station out; the smaller such station
    StationOut(u8),
    // 12 b: audit with a station absent; the smallest
    AbsentAtAudit(u8),
    // 13 r: an image's length is wrong; its real length
    WrongLength(usize),
    // 14 r: the version is not 1; its offset
    WrongVersion(usize),
    // 15 r: marks for stations of n or more; offset 6
    StrayMarks,
    // 16 r: a record is cut short; its offset
    CutShort(usize),
    // 17 r: an unknown letter; its offset
    UnknownLetter(usize),
    // 18 r: a length that is wrong for the letter; the length's offset
    WrongRecordLength(usize),
    // 19 r: a session over 16,384 bytes
    SessionTooLong,
}

impl Fault {
    // What it says: its number, the layer in which it began, and its place. A tuple, so that each fault is one line.
    fn slip(self) -> (u8, Layer, usize)
        ensures { result ≡ (number_of self, layer_of self, place_of self) }
    {
        match self {
            Fault::NotASize(n) => (1, Layer::Book, usize::from(n)),
            Fault::OutAtOpen(s) => (2, Layer::Book, usize::from(s)),
            Fault::AreaTooShort(len) => (3, Layer::Book, len),
            Fault::NoSuchStation(s) => (4, Layer::Store, usize::from(s)),
            Fault::CheckPair(s) => (5, Layer::Book, usize::from(s)),
            Fault::AlreadyAbsent(s) => (6, Layer::Book, usize::from(s)),
            Fault::AlreadyOut(s) => (6, Layer::Store, usize::from(s)),
            Fault::NotOut(s) => (7, Layer::Book, usize::from(s)),
            Fault::AlreadyIn(s) => (7, Layer::Store, usize::from(s)),
            Fault::FillingUnderWay(s) => (8, Layer::Book, usize::from(s)),
            Fault::TooManyAbsent(count) => (9, Layer::Book, usize::from(count)),
            Fault::TicketRefused(s) => (10, Layer::Book, usize::from(s)),
            Fault::StationOut(s) => (11, Layer::Store, usize::from(s)),
            Fault::AbsentAtAudit(s) => (12, Layer::Book, usize::from(s)),
            Fault::WrongLength(len) => (13, Layer::Record, len),
            Fault::WrongVersion(at) => (14, Layer::Record, at),
            Fault::StrayMarks => (15, Layer::Record, 6),
            Fault::CutShort(at) => (16, Layer::Record, at),
            Fault::UnknownLetter(at) => (17, Layer::Record, at),
            Fault::WrongRecordLength(at) => (18, Layer::Record, at),
            Fault::SessionTooLong => (19, Layer::Record, 16384),
        }
    }

    pub fn number(self) -> u8
        ensures { result ≡ number_of self }
    {
        self.slip().0
    }

    pub fn layer(self) -> Layer
        ensures { result ≡ layer_of self }
    {
        self.slip().1
    }

    pub fn place(self) -> usize
        ensures { result ≡ place_of self }
    {
        self.slip().2
    }

    // Whether they say the same, which no two different faults do.
    pub fn says_the_same(self, other: Fault) -> bool
        ensures says { result ≡ same_fault self other }
        ensures same { Decides result (self ≡ other) }
        ensures laws { IsPartialEquivalence same_fault }
    {
        self == other
    }
}

// NUMBER LAYER PLACE, as `4 s 7`.
impl fmt::Display for Fault {
    ghost output = { λ f. Some (written f) };

    fn fmt<W: fmt::Write>(&self, f: &mut fmt::Formatter<W>) -> fmt::Result {
        let (number, layer, place) = self.slip();
        let letter = layer.letter();
        write!(f, "{number} {letter} {place}")
    }
}

// By hand: a fault is printed in this form only, and a derived `Debug` would write the case's name.
impl fmt::Debug for Fault {
    fn fmt<W: fmt::Write>(&self, f: &mut fmt::Formatter<W>) -> fmt::Result {
        fmt::Display::fmt(self, f)
    }
}
