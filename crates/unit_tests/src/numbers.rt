//! Numbers may cross threads.

use xs_num::number::{Num, Number};

// A value, of a type that may cross threads.
fn crossed<T: Send + Sync + Copy>(value: T) -> T {
    value
}

#[test]
fn numbers_cross_threads(rt: HostRuntime) {
    assert!(rt; matches!(crossed(Num::from(3)).get(), Number::Whole(3)));
}
