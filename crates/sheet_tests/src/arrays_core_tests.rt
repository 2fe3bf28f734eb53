//! Memory for an array to grow. The program allocates it with a tail instead.

use arrays_core::Array;

#[test]
fn an_array_has_room_to_grow(rt: HostRuntime) {
    let array = Array::scalar(rt.alloc(), 7).expect(&rt, "a scalar");
    assert!(rt; array.room(1000).is_ok());
}
