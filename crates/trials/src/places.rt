// Pairs and places, counted row by row.
use code::{Pair, pair_at, place};
use std::test::Fail;

#[test]
fn places_of_examples(rt: HostRuntime) {
    for (a, b, p) in [(0, 0, 0), (4, 2, 12), (2, 4, 12), (4, 4, 14), (30, 30, 495)] {
        assert_eq!(rt; place(a, b), p, "{}", p);
    }
}

#[test]
fn every_place_and_back(rt: HostRuntime) -> Result<(), Fail> {
    let mut places = 0..496usize;
    for larger in 0..31 {
        for smaller in 0..=larger {
            let p = places.next().ok_or("more pairs than places")?;
            assert_eq!(rt; place(larger, smaller), p);
            assert_eq!(rt; place(smaller, larger), p);
            assert_eq!(rt; pair_at(p), Some(Pair { larger, smaller }));
        }
    }
    assert_eq!(rt; places.next(), None);
    assert_eq!(rt; pair_at(496), None);
    assert_eq!(rt; pair_at(usize::MAX), None);
    Ok(())
}

// With five stations, the pairs whose sum leaves 0 are 00, 23 and 14.
#[test]
fn diagonal_0_of_five(rt: HostRuntime) -> Result<(), Fail> {
    for p in 0..15usize {
        let pair = pair_at(p).ok_or("no pair")?;
        let on = pair.larger.wrapping_add(pair.smaller) % 5 == 0;
        let listed = [place(0, 0), place(2, 3), place(1, 4)].contains(&p);
        assert_eq!(rt; on, listed, "{}", p);
    }
    Ok(())
}
