//! A set of numbers.

use listed::NumberSet;

/// It has so many members, of which this is the least.
fn has(set: &NumberSet, count: u32, first: Option<u32>) -> bool {
    set.count() == count && set.first() == first
}

#[test]
fn a_set_finds_its_members_by_their_place(rt: HostRuntime) {
    let mut set = NumberSet::new(rt.alloc(), 10).expect(&rt, "memory");
    assert!(rt; set.most() == 10 && has(&set, 0, None));
    set.insert(9);
    set.insert(3);
    set.insert(7);
    set.insert(3);
    assert!(rt; has(&set, 3, Some(3)) && set.contains(7));
    assert!(rt; set.count() == 3 && set.nth(1) == 7 && set.nth(2) == 9);
    set.remove(3);
    assert!(rt; has(&set, 2, Some(7)) && !set.contains(3));
}
