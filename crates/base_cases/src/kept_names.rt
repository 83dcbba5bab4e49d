//! What a `Name` keeps, and which are equal.

use crm_lex::Name;
use std::alloc::Global;
use std::hash::{FoldHasher, Hash, Hasher};
use std::process::Abort;

fn name(rt: &impl Abort, alloc: Global, bytes: &[u8]) -> Name {
    Name::from_bytes(alloc, bytes).expect(rt, "memory")
}

#[test]
fn a_name_keeps_its_bytes(rt: HostRuntime) {
    let name = name(&rt, rt.alloc(), b"n1");
    let shown = format!(in rt.alloc(); "{name:?}").expect(&rt, "memory");
    assert!(rt; name.bytes() == b"n1".as_slice());
    assert!(rt; shown.as_str() == "[110, 49]");
}

fn hash_of(name: &Name) -> u64 {
    let mut hasher = FoldHasher::default();
    name.hash(&mut hasher);
    hasher.finish()
}

#[test]
fn equal_names_have_one_hash(rt: HostRuntime) {
    let one = name(&rt, rt.alloc(), b"n1");
    let same = name(&rt, rt.alloc(), b"n1");
    assert!(rt; one == same);
    assert!(rt; hash_of(&one) == hash_of(&same));
    assert!(rt; one != name(&rt, rt.alloc(), b"n2"));
}
