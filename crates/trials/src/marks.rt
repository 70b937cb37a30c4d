// Marks, one station at a time.
use code::Marks;
use std::ops::RangeInclusive;
use std::process::Abort;

// Of some numbers, the set has those that are wanted and no other.
fn has_those<F: Fn(u8) -> bool>(rt: &impl Abort, set: Marks, numbers: RangeInclusive<u8>, wanted: F)
    requires { F.IsAlwaysCallable wanted }
{
    for k in numbers {
        assert_eq!(rt; set.has(k), wanted(k), "{}", k);
    }
}

#[test]
fn set_and_cleared(rt: HostRuntime) {
    for s in 0..32 {
        let one = Marks::none().with(s, true);
        has_those(&rt, one, 0..=255, |k| k == s);
        assert_eq!(rt; u32::from(one), 1u32 << s);
        assert_eq!(rt; u32::from(one.with(s, true)), u32::from(one));
        assert_eq!(rt; u32::from(one.with(s, false)), 0);
        let rest = Marks::from(u32::MAX).with(s, false);
        has_those(&rt, rest, 0..=31, |k| k != s);
        assert_eq!(rt; u32::from(rest.with(s, true)), u32::MAX);
    }
}

#[test]
fn no_mark_from_32_on(rt: HostRuntime) {
    let all = Marks::from(u32::MAX);
    for s in 32..=255 {
        assert!(rt; !all.has(s), "{}", s);
        assert_eq!(rt; u32::from(all.with(s, false)), u32::MAX);
        assert_eq!(rt; u32::from(Marks::none().with(s, true)), 0);
    }
}
