//! Copies of users.

use cs_users::Users;
use std::process::Abort;

const USERS: &[u8] = b"# people\n1:ann::\n2:bob::\n3:cat::\n4:staff:ann:ann,bob,zed\n5:none::\n";

/// In a copy of the users bob is a member of staff and of bob; cat and zed are none of staff, and
/// none is not even one of none. ann leads staff; bob leads bob, whose leader field is empty, and
/// not staff. zed is not known.
#[test]
fn a_copy_answers_alike(rt: HostRuntime) {
    let users = Users::read(rt.alloc(), USERS).expect(&rt, "users");
    let copy = users.try_clone(rt.alloc()).expect(&rt, "memory");
    assert!(rt; copy.knows(b"ann") && copy.knows(b"none") && !copy.knows(b"zed"));
    assert!(rt; copy.is_member(b"bob", b"staff") && copy.is_member(b"bob", b"bob"));
    assert!(rt; !copy.is_member(b"cat", b"staff") && !copy.is_member(b"zed", b"staff"));
    assert!(rt; !copy.is_member(b"none", b"none"));
    assert!(rt; copy.is_leader(b"ann", b"staff") && copy.is_leader(b"bob", b"bob"));
    assert!(rt; !copy.is_leader(b"bob", b"staff") && !copy.is_leader(b"none", b"none"));
}
