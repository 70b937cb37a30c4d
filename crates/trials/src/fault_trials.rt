// What each fault says.
use faults::Fault;
use std::process::Abort;
use std::test::Fail;

const CASES: [(Fault, u8, &str); 21] = [
    (Fault::NotASize(9), 1, "1 b 9"),
    (Fault::OutAtOpen(2), 2, "2 b 2"),
    (Fault::AreaTooShort(1000), 3, "3 b 1000"),
    (Fault::NoSuchStation(255), 4, "4 s 255"),
    (Fault::CheckPair(30), 5, "5 b 30"),
    (Fault::AlreadyAbsent(3), 6, "6 b 3"),
    (Fault::AlreadyOut(3), 6, "6 s 3"),
    (Fault::NotOut(0), 7, "7 b 0"),
    (Fault::AlreadyIn(0), 7, "7 s 0"),
    (Fault::FillingUnderWay(4), 8, "8 b 4"),
    (Fault::TooManyAbsent(3), 9, "9 b 3"),
    (Fault::TicketRefused(10), 10, "10 b 10"),
    (Fault::StationOut(1), 11, "11 s 1"),
    (Fault::AbsentAtAudit(1), 12, "12 b 1"),
    (Fault::WrongLength(969), 13, "13 r 969"),
    (Fault::WrongVersion(0), 14, "14 r 0"),
    (Fault::StrayMarks, 15, "15 r 6"),
    (Fault::CutShort(7), 16, "16 r 7"),
    (Fault::UnknownLetter(4), 17, "17 r 4"),
    (Fault::WrongRecordLength(2), 18, "18 r 2"),
    (Fault::SessionTooLong, 19, "19 r 16384"),
];

#[test]
fn number_layer_place(rt: HostRuntime) -> Result<(), Fail> {
    for (fault, number, text) in CASES {
        assert_eq!(rt; fault.number(), number);
        assert_eq!(rt; format!(in rt.alloc(); "{fault}")?.as_str(), text);
        assert_eq!(rt; format!(in rt.alloc(); "{fault:?}")?.as_str(), text);
    }
    Ok(())
}

// The fault is the same as the case of that text, and as no other.
fn same_as_only(rt: &impl Abort, fault: Fault, text: &str) {
    for (other, _, other_text) in CASES {
        assert_eq!(rt; fault == other, text == other_text, "{}", fault);
        assert_eq!(rt; fault.says_the_same(other), text == other_text, "{}", fault);
    }
}

#[test]
fn told_apart(rt: HostRuntime) {
    for (fault, _, text) in CASES {
        same_as_only(&rt, fault, text);
    }
    assert_ne!(rt; Fault::NotASize(4), Fault::NotASize(6));
}
