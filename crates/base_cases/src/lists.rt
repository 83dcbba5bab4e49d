//! What a `Listed` is, as a list of numbers and as a list of lists.

use listed::Listed;
use std::alloc::Global;
use std::process::Abort;

fn listed(rt: &impl Abort, alloc: Global, items: &[u32]) -> Listed<u32> {
    Listed::from(items.to_vec(alloc).expect(rt, "memory"))
}

/// Whether a list has these elements, whichever way it is asked.
fn has(list: &Listed<u32>, items: &[u32]) -> bool {
    list.len() == items.len()
        && list.is_empty() == items.is_empty()
        && list.iter().count() == items.len()
        && list.as_slice() == items
}

#[test]
fn a_list_of_numbers(rt: HostRuntime) {
    let mut list = Listed::new(rt.alloc());
    assert!(rt; has(&list, &[]));
    list.push(4).expect(&rt, "memory");
    list.push(7).expect(&rt, "memory");
    assert!(rt; has(&list, &[4, 7]));
    assert!(rt; list.into_vec().as_slice() == [4, 7].as_slice());
}

#[test]
fn equal_lists(rt: HostRuntime) {
    let list = listed(&rt, rt.alloc(), &[4, 7]);
    assert!(rt; list == listed(&rt, rt.alloc(), &[4, 7]));
    assert!(rt; list != listed(&rt, rt.alloc(), &[4, 8]));
}

#[test]
fn a_list_is_shown(rt: HostRuntime) {
    let list = listed(&rt, rt.alloc(), &[4, 7]);
    let shown = format!(in rt.alloc(); "{list:?}").expect(&rt, "memory");
    assert!(rt; shown.as_str() == "[4, 7]");
}

#[test]
fn a_list_of_lists(rt: HostRuntime) {
    let alloc = rt.alloc();
    let mut one = Listed::new(alloc);
    one.push(listed(&rt, alloc, &[1, 2])).expect(&rt, "memory");
    let mut other = Listed::new(alloc);
    other
        .push(listed(&rt, alloc, &[1, 2]))
        .expect(&rt, "memory");
    assert!(rt; one == other);
    other.push(listed(&rt, alloc, &[])).expect(&rt, "memory");
    assert!(rt; one != other);
}
