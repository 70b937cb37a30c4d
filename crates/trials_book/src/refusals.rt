// What the calls of a book of five stations refuse, at the edge of each check, and that a refused call changes nothing.
use crate::plays::{Left, abandon, fill, finish, fit, lose, play, read, write};
use faults::Fault;
use serve::{Answer, Call, Sort};
use std::alloc::Global;
use std::process::Abort;
use std::test::Fail;

// What is left with a call between others, and without it.
#[derive(Drop)]
struct Compared {
    with: Left,
    without: Left,
}

impl Compared {
    fn play(
        heap: Global,
        before: &[Call<bool>],
        call: Call<bool>,
        after: &[Call<bool>],
    ) -> Result<Self, Fail> {
        Ok(Compared {
            with: play(heap, &[before, &[call], after])?,
            without: play(heap, &[before, after])?,
        })
    }

    // The call, where it comes last, is answered so, and leaves the row and the work area.
    fn changes_nothing(&self, answer: Answer<bool>) -> bool {
        let last = self.with.turns.last();
        last.is_some_and(|turn| turn.answer == answer)
            && self.with.row == self.without.row
            && self.with.work == self.without.work
    }

    // So many calls that come after it are answered alike, and leave the same row.
    fn ends_alike(&self, count: usize) -> bool {
        let with = self.with.turns.iter().rev().take(count);
        let without = self.without.turns.iter().rev().take(count);
        with.eq(without) && self.with.row == self.without.row
    }
}

// What shows the blocks, the record of the filling and the tickets.
fn ending() -> [Call<bool>; 12] {
    [
        read(0, 0, 40),
        read(1, 0, 40),
        read(1, 1, 40),
        read(2, 0, 40),
        read(2, 1, 40),
        read(2, 2, 40),
        fill(1, 40),
        finish(1),
        fill(3, 40),
        finish(1),
        write(2, 0, 40),
        read(2, 0, 40),
    ]
}

// Each call is refused so after these calls and changes nothing, and what comes after is the same as without it.
fn each_refuses(
    rt: &(impl Abort + AllocGlobal),
    before: &[Call<bool>],
    cases: &[(Call<bool>, Fault)],
) -> Result<(), Fail> {
    let ending = ending();
    for (call, fault) in cases {
        let last = Compared::play(rt.alloc(), before, *call, &[])?;
        assert!(rt;
            last.changes_nothing(Answer::Refused(*fault)),
            "{:?}",
            *call
        );
        let between = Compared::play(rt.alloc(), before, *call, &ending)?;
        assert!(rt; between.ends_alike(ending.len()), "{:?}", *call);
    }
    Ok(())
}

// What is refused while all stations stand, while some are out, and while station 1 is being filled.
fn all_stand() -> [(Call<bool>, Fault); 19] {
    [
        (write(9, 9, 39), Fault::AreaTooShort(39)),
        (read(0, 0, 39), Fault::AreaTooShort(39)),
        (read(9, 9, 0), Fault::AreaTooShort(0)),
        (write(5, 6, 40), Fault::NoSuchStation(5)),
        (write(6, 5, 40), Fault::NoSuchStation(6)),
        (read(3, 5, 40), Fault::NoSuchStation(5)),
        (read(255, 0, 40), Fault::NoSuchStation(255)),
        (write(2, 3, 40), Fault::CheckPair(3)),
        (write(4, 4, 40), Fault::CheckPair(4)),
        (read(3, 0, 40), Fault::CheckPair(3)),
        (read(3, 4, 40), Fault::CheckPair(4)),
        (lose(5), Fault::NoSuchStation(5)),
        (lose(255), Fault::NoSuchStation(255)),
        (fit(5), Fault::NoSuchStation(5)),
        (fit(0), Fault::NotOut(0)),
        (fit(4), Fault::NotOut(4)),
        (fill(3, 39), Fault::AreaTooShort(39)),
        (fill(3, 40), Fault::TicketRefused(3)),
        (finish(1), Fault::TicketRefused(1)),
    ]
}

fn two_out() -> [(Call<bool>, Fault); 5] {
    [
        (lose(0), Fault::AlreadyAbsent(0)),
        (lose(4), Fault::AlreadyAbsent(4)),
        (fit(5), Fault::NoSuchStation(5)),
        (fit(1), Fault::NotOut(1)),
        (fill(3, 40), Fault::TicketRefused(3)),
    ]
}

fn three_out() -> [(Call<bool>, Fault); 11] {
    [
        (write(1, 1, 39), Fault::AreaTooShort(39)),
        (write(5, 0, 40), Fault::NoSuchStation(5)),
        (write(3, 1, 40), Fault::CheckPair(3)),
        (write(1, 1, 40), Fault::TooManyAbsent(3)),
        (read(3, 3, 40), Fault::CheckPair(3)),
        (read(1, 0, 40), Fault::TooManyAbsent(3)),
        (read(2, 1, 40), Fault::TooManyAbsent(3)),
        (lose(4), Fault::AlreadyAbsent(4)),
        (fit(3), Fault::NotOut(3)),
        (fit(0), Fault::TooManyAbsent(3)),
        (fill(3, 40), Fault::TicketRefused(3)),
    ]
}

fn filled() -> [(Call<bool>, Fault); 5] {
    [
        (lose(1), Fault::AlreadyAbsent(1)),
        (fit(1), Fault::NotOut(1)),
        (fill(1, 39), Fault::AreaTooShort(39)),
        (fill(3, 40), Fault::TicketRefused(3)),
        (finish(1), Fault::TicketRefused(1)),
    ]
}

fn filled_two_out() -> [(Call<bool>, Fault); 9] {
    [
        (write(2, 2, 40), Fault::TooManyAbsent(3)),
        (read(2, 1, 40), Fault::TooManyAbsent(3)),
        (read(0, 2, 40), Fault::TooManyAbsent(3)),
        (fit(1), Fault::NotOut(1)),
        (fit(0), Fault::FillingUnderWay(1)),
        (fill(1, 39), Fault::AreaTooShort(39)),
        (fill(3, 40), Fault::TicketRefused(3)),
        (fill(1, 40), Fault::TooManyAbsent(3)),
        (finish(1), Fault::TicketRefused(1)),
    ]
}

// The first seven fill station 1 but for its last partner.
fn before_filled() -> [Call<bool>; 9] {
    [
        write(2, 1, 40),
        lose(1),
        fit(1),
        fill(1, 40),
        fill(1, 40),
        fill(1, 40),
        fill(1, 40),
        lose(0),
        lose(4),
    ]
}

fn before_lost() -> [Call<bool>; 4] {
    [write(2, 0, 40), lose(0), lose(4), lose(2)]
}

#[test]
fn refused_with_stations_out(rt: HostRuntime) -> Result<(), Fail> {
    each_refuses(&rt, &before_lost()[0..1], &all_stand())?;
    each_refuses(&rt, &before_lost()[0..3], &two_out())?;
    each_refuses(&rt, &before_lost(), &three_out())
}

#[test]
fn refused_while_filling(rt: HostRuntime) -> Result<(), Fail> {
    each_refuses(&rt, &before_filled()[0..7], &filled())?;
    each_refuses(&rt, &before_filled(), &filled_two_out())
}

// Abandon refuses nothing: a stale ticket is spent, and nothing changes.
fn untouched(
    rt: &(impl Abort + AllocGlobal),
    before: &[Call<bool>],
    call: Call<bool>,
) -> Result<(), Fail> {
    let last = Compared::play(rt.alloc(), before, call, &[])?;
    assert!(rt; last.changes_nothing(Answer::Untouched), "{:?}", call);
    Ok(())
}

#[test]
fn stale_tickets_abandoned(rt: HostRuntime) -> Result<(), Fail> {
    untouched(&rt, &before_filled(), abandon(3, Sort::Open))?;
    untouched(&rt, &before_lost(), abandon(1, Sort::Full))
}
