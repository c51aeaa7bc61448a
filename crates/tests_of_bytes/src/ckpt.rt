//! Numbers of each width, put and taken, by hand.

use mls_ckpt::{Put, Take, TakeFault};

#[test]
fn numbers_are_put_and_taken(rt: HostRuntime) {
    let mut put = Put::new(rt.alloc());
    put.reserve(31).expect(&rt, "room");
    put.put_u8(7).expect(&rt, "memory");
    put.put_u16(0x0102).expect(&rt, "memory");
    put.put_u32(0x0304_0506).expect(&rt, "memory");
    put.put_u64(8).expect(&rt, "memory");
    put.put_u128(9).expect(&rt, "memory");
    let bytes = put.finish();
    assert_eq!(rt; (bytes.len(), bytes.as_slice().get(2)), (31, Some(&2)));
    let mut take = Take::new(bytes.as_slice());
    assert_eq!(rt; take.u8(6), Err(TakeFault::Range { at: 0 }));
    assert_eq!(rt; (take.u8(7), take.u16(0x0102)), (Ok(7), Ok(0x0102)));
    assert_eq!(rt; take.end(), Err(TakeFault::Trailing { at: 3 }));
    assert_eq!(rt; (take.u32(u32::MAX), take.u64(8)), (Ok(0x0304_0506), Ok(8)));
    assert_eq!(rt; take.at(), 15);
    assert_eq!(rt; (take.u128(9), take.end()), (Ok(9), Ok(())));
    assert_eq!(rt; take.u8(255), Err(TakeFault::Short { at: 31 }));
}
