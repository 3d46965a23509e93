use std::process::Abort;

pub fn assert_text(rt: &impl Abort, shown: &str, wanted: &str) {
    assert_eq!(rt; shown, wanted);
}
