use bus::{Bus, Marks};
use order::{Field, line, receive, store_field_at};
use refusal::Refusal;
use std::test::Fail;

#[test]
fn a_panel_over_a_rom_over_a_memory(rt: HostRuntime) -> Result<(), Fail> {
    let words = vec![in rt.alloc(); 7; 16]?;
    let mut card = card::stack(words, b"h");
    assert_eq!(rt; card.fetch(0x3F_F800), 0xE700_07FF);
    assert_eq!(rt; card.fetch(0x3F_F801), 0);
    card.write(0x3F_F800, 0, Marks::all());
    assert_eq!(rt; card.read(0x3F_F800), 0xE700_07FF);
    card.write(5, 0xAABB_CCDD, Marks::only(2));
    assert_eq!(rt; card.read(5), 0x00BB_0007);
    card.pass(13_030);
    assert_eq!(rt; card.read(0x3F_FFF3), 1);
    assert_eq!(rt; card.read(0x3F_FFF2), 104);
    assert_eq!(rt; card.read(0x3F_FFF3), 0);
    Ok(())
}

#[test]
fn a_standard_card_has_4096_zero_words(rt: HostRuntime) -> Result<(), Fail> {
    let mut card = card::standard(rt.alloc())?;
    card.write(4_095, 9, Marks::all());
    card.write(4_096, 9, Marks::all());
    assert_eq!(rt; card.read(4_095), 9);
    assert_eq!(rt; card.read(4_096), 0);
    assert_eq!(rt; card.read(0), 0);
    Ok(())
}

#[test]
fn of_two_faults_the_lower_number_is_told(rt: HostRuntime) {
    let feed = [0; 65];
    assert_eq!(rt; card::check(&[], &feed), Err(Refusal::MemoryWords));
    assert_eq!(rt; card::check(&[0], &feed), Err(Refusal::FeedBytes));
    assert_eq!(rt; card::check(&[0], &[]), Ok(()));
}

#[test]
fn a_quantity_of_256_is_loaded_as_65536(rt: HostRuntime) -> Result<(), Fail> {
    let field = Field::from([0, 0, 1, 0]);
    assert_eq!(rt; line::field(b"BUY 00 00 01 00"), Some(field));
    assert_eq!(rt; field.sent(), 256);
    let finding = receive(rt.alloc(), field)?;
    assert_eq!(rt; finding.word, 65_536);
    assert_eq!(rt; finding.bytes, field);
    Ok(())
}

#[test]
fn a_field_is_stored_at_any_byte_address(rt: HostRuntime) -> Result<(), Fail> {
    let mut card = card::standard(rt.alloc())?;
    let field = Field::from([1, 2, 3, 4]);
    store_field_at(&mut card, 256, field);
    assert_eq!(rt; card.fetch(64), 0x0403_0201);
    // The last three bytes go on at address 0; the first is the panel's, where a write does nothing.
    store_field_at(&mut card, 4_294_967_295, field);
    assert_eq!(rt; card.fetch(0), 0x0004_0302);
    assert_eq!(rt; <[u8; 4]>::from(field), [1, 2, 3, 4]);
    Ok(())
}

#[test]
fn a_line_without_a_field_is_not_read(rt: HostRuntime) {
    assert_eq!(rt; line::field(b""), None);
    assert_eq!(rt; line::field(b"0 00 01 00"), None);
    assert_eq!(rt; line::field(b"00-00 01 00"), None);
    assert_eq!(rt; line::field(b"00 00 01 0G"), None);
    assert_eq!(rt; line::field(b"00 00 01 00 "), None);
    let field = Field::from([0xAF, 0xAF, 0x09, 0xFF]);
    assert_eq!(rt; line::field(b"af AF 09 fF"), Some(field));
}
