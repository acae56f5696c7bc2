//! Byte orders, those of a user's own too.

use crate::tests::checks::check_debug;
use perf_base::ParseConfig;
use perf_base::endian::{Big, Dynamic, Endian, Little, Native};
use perf_test_inputs::orders::{Counting, Words};
use std::cell::Cell;
use std::test::Fail;

#[test]
fn a_refused_duplicate_refuses_the_configuration(rt: HostRuntime) {
    let calls = Cell::new(0);
    let config = ParseConfig::<Little>::default().with_endian(Counting::single(&calls));
    let kind = match config.duplicate() {
        Ok(_) => None,
        Err(error) => Some(error.kind()),
    };
    check_debug(&rt, kind, "Some(OutOfMemory)");
}

// What a byte order makes of the bytes 1 to 8.
fn conversions_of<E: Endian>(order: &E) -> (u16, u32, u64) {
    (
        order.convert_u16([1, 2]),
        order.convert_u32([1, 2, 3, 4]),
        order.convert_u64([1, 2, 3, 4, 5, 6, 7, 8]),
    )
}

const LOWEST_FIRST: (u16, u32, u64) = (0x0201, 0x04030201, 0x0807060504030201);

const HIGHEST_FIRST: (u16, u32, u64) = (0x0102, 0x01020304, 0x0102030405060708);

#[test]
fn orders_convert_as_they_are_named(rt: HostRuntime) {
    let actual = [
        conversions_of(&Little),
        conversions_of(&Native),
        conversions_of(&Dynamic::Little),
        conversions_of(&Big),
        conversions_of(&Dynamic::Big),
        conversions_of(&Words { added: 0 }),
    ];
    let want = [
        LOWEST_FIRST,
        LOWEST_FIRST,
        LOWEST_FIRST,
        HIGHEST_FIRST,
        HIGHEST_FIRST,
        (0x0201, 0x02010403, 0x0201040306050807),
    ];
    check_debug(&rt, actual == want, "true");
}

#[test]
fn the_little_orders_are_native(rt: HostRuntime) {
    let calls = Cell::new(0);
    let actual = [
        Native.is_native(),
        Little.is_native(),
        Dynamic::Little.is_native(),
        Big.is_native(),
        Dynamic::Big.is_native(),
        Words { added: 8 }.is_native(),
        Words { added: 0 }.is_native(),
        Counting::single(&calls).is_native(),
    ];
    check_debug(
        &rt,
        actual,
        "[true, true, true, false, false, false, false, false]",
    );
}

#[test]
fn a_configuration_keeps_its_order(rt: HostRuntime) -> Result<(), Fail> {
    let config = ParseConfig::<Native>::default().with_endian(Dynamic::Big);
    let second = config.duplicate()?;
    let orders = [*config.endian(), *second.endian()];
    check_debug(&rt, orders, "[Big, Big]");
    Ok(())
}
