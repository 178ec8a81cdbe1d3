use crate::sevens;
use bus::lanes::{byte_in, word_with};
use bus::table::filled_with;
use bus::{Bus, Marks};
use refusal::Refusal;
use std::alloc::{AllocError, Global};
use std::test::Fail;

#[test]
fn a_memory_has_1_to_262144_words(rt: HostRuntime) -> Result<(), Fail> {
    let words = vec![in rt.alloc(); 0; 262_145]?;
    assert_eq!(rt; memory::check(&words), Err(Refusal::MemoryWords));
    assert!(rt; words.len() == 262_145);
    assert_eq!(rt; memory::check(&words[0..262_144]), Ok(()));
    assert_eq!(rt; memory::check(&words[0..1]), Ok(()));
    assert_eq!(rt; memory::check(&words[0..0]), Err(Refusal::MemoryWords));
    Ok(())
}

#[test]
fn making_keeps_the_first_262144_words(rt: HostRuntime) -> Result<(), Fail> {
    let mut memory = sevens(rt.alloc(), 262_145)?;
    assert_eq!(rt; memory.fetch(262_143), 7);
    assert_eq!(rt; memory.fetch(262_144), 0);
    memory.write(262_144, 9, Marks::all());
    assert_eq!(rt; memory.read(262_144), 0);
    Ok(())
}

#[test]
fn one_word_and_none(rt: HostRuntime) -> Result<(), Fail> {
    let mut one = sevens(rt.alloc(), 1)?;
    one.write(1, 9, Marks::all());
    assert_eq!(rt; one.fetch(0), 7);
    assert_eq!(rt; one.fetch(1), 0);
    let mut none = sevens(rt.alloc(), 0)?;
    none.write(0, 9, Marks::all());
    assert_eq!(rt; none.read(0), 0);
    Ok(())
}

#[test]
fn an_address_is_taken_modulo_2_to_the_22(rt: HostRuntime) -> Result<(), Fail> {
    let mut memory = sevens(rt.alloc(), 16)?;
    memory.write(0x40_0005, 0x0102_0304, Marks::all());
    assert_eq!(rt; memory.fetch(5), 0x0102_0304);
    assert_eq!(rt; memory.fetch(0xFFC0_0005), 0x0102_0304);
    assert_eq!(rt; memory.read(0x80_0005), 0x0102_0304);
    assert_eq!(rt; memory.fetch(0x3F_FFFF), 0);
    Ok(())
}

#[test]
fn clocks_and_reads_change_nothing(rt: HostRuntime) -> Result<(), Fail> {
    let mut memory = sevens(rt.alloc(), 2)?;
    memory.pass(65_535);
    memory.pass(0);
    assert_eq!(rt; memory.read(1), 7);
    assert_eq!(rt; memory.read(1), 7);
    Ok(())
}

// What is left of 11223344H after AABBCCDDH was written under these marks.
fn written(alloc: Global, marks: [bool; 4]) -> Result<u32, AllocError> {
    let mut memory = sevens(alloc, 4)?;
    memory.write(3, 0x1122_3344, Marks::all());
    memory.write(3, 0xAABB_CCDD, Marks::from(marks));
    Ok(memory.fetch(3))
}

#[test]
fn each_pattern_without_the_highest_mark(rt: HostRuntime) -> Result<(), Fail> {
    let alloc = rt.alloc();
    assert_eq!(rt; written(alloc, [false, false, false, false])?, 0x1122_3344);
    assert_eq!(rt; written(alloc, [true, false, false, false])?, 0x1122_33DD);
    assert_eq!(rt; written(alloc, [false, true, false, false])?, 0x1122_CC44);
    assert_eq!(rt; written(alloc, [true, true, false, false])?, 0x1122_CCDD);
    assert_eq!(rt; written(alloc, [false, false, true, false])?, 0x11BB_3344);
    assert_eq!(rt; written(alloc, [true, false, true, false])?, 0x11BB_33DD);
    assert_eq!(rt; written(alloc, [false, true, true, false])?, 0x11BB_CC44);
    assert_eq!(rt; written(alloc, [true, true, true, false])?, 0x11BB_CCDD);
    Ok(())
}

#[test]
fn each_pattern_with_the_highest_mark(rt: HostRuntime) -> Result<(), Fail> {
    let alloc = rt.alloc();
    assert_eq!(rt; written(alloc, [false, false, false, true])?, 0xAA22_3344);
    assert_eq!(rt; written(alloc, [true, false, false, true])?, 0xAA22_33DD);
    assert_eq!(rt; written(alloc, [false, true, false, true])?, 0xAA22_CC44);
    assert_eq!(rt; written(alloc, [true, true, false, true])?, 0xAA22_CCDD);
    assert_eq!(rt; written(alloc, [false, false, true, true])?, 0xAABB_3344);
    assert_eq!(rt; written(alloc, [true, false, true, true])?, 0xAABB_33DD);
    assert_eq!(rt; written(alloc, [false, true, true, true])?, 0xAABB_CC44);
    assert_eq!(rt; written(alloc, [true, true, true, true])?, 0xAABB_CCDD);
    Ok(())
}

#[test]
fn lanes_and_marks(rt: HostRuntime) {
    assert_eq!(rt; byte_in(0x1122_3344, 0), 0x44);
    assert_eq!(rt; byte_in(0x1122_3344, 3), 0x11);
    assert_eq!(rt; byte_in(0x1122_3344, 4_294_967_294), 0x22);
    assert_eq!(rt; word_with(0xAB, 1), 0xAB00);
    assert_eq!(rt; word_with(0xAB, 7), 0xAB00_0000);
    let third = Marks::from([false, false, true, false]);
    assert_eq!(rt; Marks::only(6), third);
}

#[test]
fn a_table_takes_the_first_items(rt: HostRuntime) {
    let short: [u8; 3] = filled_with(9, &[1, 2]);
    assert_eq!(rt; short, [1, 2, 9]);
    let long: [u8; 3] = filled_with(9, &[1, 2, 3, 4]);
    assert_eq!(rt; long, [1, 2, 3]);
}

#[test]
fn a_refusal_tells_number_layer_and_place(rt: HostRuntime) -> Result<(), Fail> {
    assert_eq!(rt; Refusal::ImageWords.number(), 2);
    assert_eq!(rt; Refusal::ImageWords.layer(), 1);
    assert_eq!(rt; Refusal::ImageWords.place(), 0);
    let text = format!(in rt.alloc(); "{}", Refusal::FeedBytes)?;
    assert!(rt;
        text.as_str() == "refusal 3 of layer 1 at place 0: a panel's feed has at most 64 bytes"
    );
    Ok(())
}
