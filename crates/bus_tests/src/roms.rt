use crate::sevens;
use bus::{Bus, Marks};
use memory::Memory;
use refusal::Refusal;
use rom::Rom;
use std::alloc::{AllocError, Global};
use std::test::Fail;

// A ROM over 16 words of 7.
fn over_sevens(alloc: Global, image: &[u32]) -> Result<Rom<Memory>, AllocError> {
    Ok(Rom::new(sevens(alloc, 16)?, image))
}

#[test]
fn an_image_has_at_most_512_words(rt: HostRuntime) {
    let image = [5; 513];
    assert_eq!(rt; rom::check(&image[0..0]), Ok(()));
    assert_eq!(rt; rom::check(&image[0..512]), Ok(()));
    assert_eq!(rt; rom::check(&image[0..513]), Err(Refusal::ImageWords));
}

#[test]
fn an_empty_image_is_filled_with_zeros(rt: HostRuntime) -> Result<(), Fail> {
    let rom = over_sevens(rt.alloc(), &[])?;
    assert_eq!(rt; rom.fetch(0x3F_F800), 0);
    assert_eq!(rt; rom.fetch(0x3F_F9FF), 0);
    assert_eq!(rt; rom.fetch(0), 7);
    Ok(())
}

#[test]
fn a_whole_image_and_one_word_more(rt: HostRuntime) -> Result<(), Fail> {
    let mut image = [5; 513];
    image[511] = 6;
    image[512] = 8;
    let rom = over_sevens(rt.alloc(), &image)?;
    assert_eq!(rt; rom.fetch(0x3F_F7FF), 0);
    assert_eq!(rt; rom.fetch(0x3F_F800), 5);
    assert_eq!(rt; rom.fetch(0x3F_F9FF), 6);
    assert_eq!(rt; rom.fetch(0x3F_FA00), 0);
    assert_eq!(rt; rom.fetch(0x7F_F9FF), 6);
    Ok(())
}

#[test]
fn a_short_image_is_filled_with_zeros(rt: HostRuntime) -> Result<(), Fail> {
    let rom = over_sevens(rt.alloc(), &[1, 2, 3])?;
    assert_eq!(rt; rom.fetch(0x3F_F802), 3);
    assert_eq!(rt; rom.fetch(0x3F_F803), 0);
    Ok(())
}

#[test]
fn reads_and_writes_at_the_rom_do_nothing(rt: HostRuntime) -> Result<(), Fail> {
    let mut rom = over_sevens(rt.alloc(), &[1, 2, 3])?;
    rom.write(0x3F_F801, 9, Marks::all());
    assert_eq!(rt; rom.read(0x3F_F801), 2);
    assert_eq!(rt; rom.read(0x3F_F801), 2);
    rom.write(3, 9, Marks::all());
    assert_eq!(rt; rom.read(3), 9);
    rom.pass(65_535);
    assert_eq!(rt; rom.read(0x3F_F800), 1);
    Ok(())
}

#[test]
fn the_standard_rom_branches_to_0(rt: HostRuntime) -> Result<(), Fail> {
    let rom = Rom::boot(sevens(rt.alloc(), 1)?);
    assert_eq!(rt; rom.fetch(0x3F_F800), 0xE700_07FF);
    for k in 1..512u32 {
        assert_eq!(rt; rom.fetch(0x3F_F800 + k), 0);
    }
    Ok(())
}
