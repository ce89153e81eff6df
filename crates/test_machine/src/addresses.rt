//! Addresses, by rows worked by hand.
use cx_storage::{address_after, address_in, next_address};

#[test]
fn addresses_go_on_at_0(rt: HostRuntime) {
    assert!(rt; address_in(0x8012_3456) == 0x12_3456);
    assert!(rt; address_after(0x12_3456, 4) == 0x12_345A);
    assert!(rt; address_after(0xFF_FFFE, 4) == 2);
    assert!(rt; address_after(5, 0xFF_FFFF) == 4);
    assert!(rt; next_address(0xFF_FFFE) == 0xFF_FFFF && next_address(0xFF_FFFF) == 0);
}
