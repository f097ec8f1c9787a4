// Sets at the ends of their width.
use crate::{PLACES, Set};

fn set(places: &[u32]) -> Set {
    let mut set = Set::empty();
    for place in places {
        if *place < PLACES {
            set.insert(*place);
        }
    }
    set
}

#[test]
fn sets_are_met_and_joined(rt: HostRuntime) {
    let cases: [(&[u32], &[u32], &[u32], &[u32], bool); 6] = [
        (&[], &[], &[], &[], true),
        (&[], &[5], &[], &[5], true),
        (&[511], &[0], &[], &[0, 511], false),
        (&[0, 64, 511], &[511, 64], &[64, 511], &[0, 64, 511], false),
        (&[3, 70], &[70, 3, 9], &[3, 70], &[3, 9, 70], true),
        (&[1, 2], &[2, 1], &[1, 2], &[1, 2], true),
    ];
    for (a, b, both, either, within) in cases {
        let (first, second) = (set(a), set(b));
        assert_eq!(rt; first.meet(&second), set(both), "{a:?} and {b:?}");
        assert_eq!(rt; first.join(&second), set(either), "{a:?} or {b:?}");
        assert_eq!(rt; first.within(&second), within, "{a:?} in {b:?}");
    }
}

#[test]
fn a_set_has_its_places(rt: HostRuntime) {
    let three = set(&[0, 63, 511]);
    for place in 0..520 {
        let is_one = place == 0 || place == 63 || place == 511;
        assert_eq!(rt; three.has(place), is_one, "at {place}");
    }
    assert!(rt; !three.has(u32::MAX));
}
