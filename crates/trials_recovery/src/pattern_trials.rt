// Patterns of five and of three stations.
use code::{Size, place};
use recovery::pattern;
use std::process::Abort;
use std::test::Fail;

// The pattern of a data pair has these check pairs and no other, and the bits past the pairs stay.
fn has_pattern(rt: &impl Abort, n: u8, a: u8, b: u8, ones: &[(u8, u8)]) -> Result<(), Fail> {
    let size = Size::try_from(n)?;
    let mut work = [true; 40];
    let mut bits = [true; 20];
    pattern(size, a, b, &mut work, &mut bits)?;
    for (p, bit) in bits.iter().enumerate() {
        let is_one = ones.iter().any(|(x, y)| place(*x, *y) == p);
        assert_eq!(rt; *bit, is_one || p >= size.pairs());
    }
    Ok(())
}

#[test]
fn of_five_stations(rt: HostRuntime) -> Result<(), Fail> {
    has_pattern(&rt, 5, 0, 0, &[(0, 3), (0, 4), (1, 3), (1, 4), (4, 4)])?;
    has_pattern(&rt, 5, 0, 1, &[(0, 3), (1, 4), (2, 3), (2, 4), (4, 4)])?;
    has_pattern(&rt, 5, 1, 0, &[(0, 3), (1, 4), (2, 3), (2, 4), (4, 4)])?;
    has_pattern(&rt, 5, 1, 2, &[(0, 3), (0, 4), (1, 3), (2, 4), (3, 3)])?;
    has_pattern(
        &rt,
        5,
        1,
        1,
        &[
            (0, 3),
            (1, 3),
            (2, 3),
            (3, 3),
            (0, 4),
            (1, 4),
            (2, 4),
            (3, 4),
            (4, 4),
        ],
    )
}

#[test]
fn of_three_stations(rt: HostRuntime) -> Result<(), Fail> {
    has_pattern(&rt, 3, 0, 0, &[(0, 1), (1, 1), (0, 2), (1, 2), (2, 2)])
}
