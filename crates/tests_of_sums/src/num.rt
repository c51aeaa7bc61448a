//! The texts of an index and of the least number.

use mls_num::{Digits, put_decimal, put_millionths};

#[test]
fn texts(rt: HostRuntime) {
    let mut buffer = Digits::new();
    assert_eq!(rt; put_millionths(&mut buffer, -866_025), "-0.866025");
    assert_eq!(rt;
        put_decimal(&mut buffer, i128::MIN),
        "-170141183460469231731687303715884105728"
    );
}
