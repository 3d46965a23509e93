//! Notes are compared by what they show.
use std::alloc::Global;
use std::fmt::Debug;
use std::process::Abort;

pub fn assert_shown<T: Debug>(rt: &impl Abort, alloc: Global, value: &T, expected: &str) {
    let text = format!(in alloc; "{value:?}").expect(rt, "memory");
    assert_eq!(rt; text.as_str(), expected);
}
