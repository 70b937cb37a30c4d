// Sizes against trial division.
use crate::samples::SIZES;
use code::Size;
use faults::Fault;
use std::test::Fail;

// An odd prime from 3 to 31?
fn is_odd_prime(n: u8) -> bool {
    n >= 3 && n <= 31 && n % 2 == 1 && (2..n).all(|c| n % c != 0)
}

// The number of the size that is made of a number.
fn made(n: u8) -> Result<u8, Fault> {
    Ok(Size::try_from(n)?.number())
}

#[test]
fn every_number(rt: HostRuntime) {
    for n in 0..=255 {
        let wanted = if is_odd_prime(n) {
            Ok(n)
        } else {
            Err(Fault::NotASize(n))
        };
        assert_eq!(rt; made(n), wanted, "{}", n);
    }
}

#[test]
fn refused_and_accepted(rt: HostRuntime) {
    for n in [2, 9, 33] {
        assert_eq!(rt; made(n), Err(Fault::NotASize(n)));
    }
    for n in [3, 31] {
        assert_eq!(rt; made(n), Ok(n));
    }
}

#[test]
fn pairs_of_each_size(rt: HostRuntime) -> Result<(), Fail> {
    for (n, pairs) in SIZES {
        assert_eq!(rt; Size::try_from(n)?.pairs(), pairs, "{}", n);
    }
    Ok(())
}
