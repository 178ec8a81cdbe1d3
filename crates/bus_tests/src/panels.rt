use crate::sevens;
use bus::{Bus, Marks};
use memory::Memory;
use panel::Panel;
use refusal::Refusal;
use std::alloc::{AllocError, Global};
use std::array;
use std::test::Fail;

const BYTE: u32 = 0x3F_FFF2;

const READY: u32 = 0x3F_FFF3;

// A panel over 16 words of 7.
fn over_sevens(alloc: Global, feed: &[u8]) -> Result<Panel<Memory>, AllocError> {
    Ok(Panel::new(sevens(alloc, 16)?, feed))
}

fn pass_singly(panel: &mut Panel<Memory>, clocks: u32) {
    for _ in 0..clocks {
        panel.pass(1);
    }
}

#[test]
fn a_feed_has_at_most_64_bytes(rt: HostRuntime) {
    let feed = [5; 65];
    assert_eq!(rt; panel::check(&feed[0..0]), Ok(()));
    assert_eq!(rt; panel::check(&feed[0..64]), Ok(()));
    assert_eq!(rt; panel::check(&feed[0..65]), Err(Refusal::FeedBytes));
}

#[test]
fn the_first_byte_comes_at_13030_clocks(rt: HostRuntime) -> Result<(), Fail> {
    let mut panel = over_sevens(rt.alloc(), b"hi")?;
    assert_eq!(rt; panel.read(BYTE), 0);
    panel.pass(13_029);
    assert_eq!(rt; panel.fetch(READY), 0);
    assert_eq!(rt; panel.read(BYTE), 0);
    panel.pass(1);
    assert_eq!(rt; panel.fetch(READY), 1);
    assert_eq!(rt; panel.fetch(BYTE), 104);
    assert_eq!(rt; panel.read(BYTE), 104);
    assert_eq!(rt; panel.read(BYTE), 0);
    assert_eq!(rt; panel.fetch(READY), 0);
    Ok(())
}

#[test]
fn in_one_call_or_in_many(rt: HostRuntime) -> Result<(), Fail> {
    let mut whole = over_sevens(rt.alloc(), b"hi")?;
    whole.pass(26_060);
    let mut single = over_sevens(rt.alloc(), b"hi")?;
    pass_singly(&mut single, 26_059);
    assert_eq!(rt; single.read(BYTE), 104);
    assert_eq!(rt; single.read(BYTE), 0);
    pass_singly(&mut single, 1);
    assert_eq!(rt; single.read(BYTE), 105);
    assert_eq!(rt; whole.read(BYTE), 104);
    assert_eq!(rt; whole.read(BYTE), 105);
    assert_eq!(rt; whole.read(READY), 0);
    Ok(())
}

#[test]
fn a_whole_feed_has_arrived_at_833920_clocks(rt: HostRuntime) -> Result<(), Fail> {
    let feed: [u8; 65] = array::from_fn(|k| k as u8);
    let mut panel = over_sevens(rt.alloc(), &feed)?;
    for _ in 0..12u8 {
        panel.pass(65_535);
    }
    panel.pass(47_499);
    for k in 0..63u32 {
        assert_eq!(rt; panel.read(READY), 1);
        assert_eq!(rt; panel.read(BYTE), k);
    }
    assert_eq!(rt; panel.read(READY), 0);
    panel.pass(1);
    assert_eq!(rt; panel.read(BYTE), 63);
    panel.pass(65_535);
    assert_eq!(rt; panel.read(READY), 0);
    assert_eq!(rt; panel.read(BYTE), 0);
    Ok(())
}

#[test]
fn no_feed_shows_nothing(rt: HostRuntime) -> Result<(), Fail> {
    let mut panel = over_sevens(rt.alloc(), b"")?;
    for _ in 0..20u8 {
        panel.pass(65_535);
    }
    assert_eq!(rt; panel.read(READY), 0);
    assert_eq!(rt; panel.read(BYTE), 0);
    Ok(())
}

#[test]
fn other_cells_show_0_and_take_nothing(rt: HostRuntime) -> Result<(), Fail> {
    let mut panel = over_sevens(rt.alloc(), b"h")?;
    panel.pass(13_030);
    for cell in 0..16u32 {
        if cell != 2 && cell != 3 {
            assert_eq!(rt; panel.read(0x3F_FFF0 + cell), 0);
        }
    }
    assert_eq!(rt; panel.read(READY), 1);
    panel.write(BYTE, 9, Marks::all());
    panel.write(READY, 0, Marks::all());
    assert_eq!(rt; panel.read(0x7F_FFF2), 104);
    Ok(())
}

#[test]
fn below_the_cells_is_the_bus_below(rt: HostRuntime) -> Result<(), Fail> {
    let mut panel = over_sevens(rt.alloc(), b"h")?;
    assert_eq!(rt; panel.fetch(15), 7);
    assert_eq!(rt; panel.fetch(0x3F_FFEF), 0);
    panel.write(15, 9, Marks::all());
    assert_eq!(rt; panel.read(15), 9);
    Ok(())
}
