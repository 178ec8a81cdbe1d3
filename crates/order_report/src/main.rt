//! Reads order lines from standard input and tells, step by step, what the card makes of each quantity field.
#![tactic(auto)]

use card::STANDARD_WORDS;
use order::{ByteStore, Field, Finding, receive};
use std::io;
use std::process::ExitCode;

fn tell_store(rt: &impl Print, address: u32, byte: u8) -> io::Result<()> {
    let ByteStore { at, word, marks } = ByteStore::new(address, byte);
    let [b0, b1, b2, b3] = <[bool; 4]>::from(marks).map(u8::from);
    println!(rt;
        "   byte address {address}: byte {byte:>3} goes as {word:08X}H to word address {at}, marks {b0}{b1}{b2}{b3}"
    )
}

fn tell_stores(rt: &impl Print, field: Field) -> io::Result<()> {
    println!(rt;
        "2. The card has {STANDARD_WORDS} words of memory, the boot ROM above them and the panel on top."
    )?;
    println!(rt;
        "   Each byte is stored under its own mark alone (marks are listed byte 0 first):"
    )?;
    for (address, byte) in <[u8; 4]>::from(field).iter().enumerate() {
        tell_store(rt, address as u32, *byte)?;
    }
    Ok(())
}

fn tell_loads(rt: &impl Print, finding: Finding) -> io::Result<()> {
    let Finding { word, bytes } = finding;
    let Field { b0, b1, b2, b3 } = bytes;
    println!(rt;
        "3. Loaded byte by byte from byte addresses 0 to 3, it gives {b0} {b1} {b2} {b3}."
    )?;
    println!(rt; "   Loaded as the word at byte address 0, it gives {word}.")?;
    println!(rt; "4. As loaded: byte 0 is the lowest,")?;
    println!(rt; "      {b0} + {b1} x 256 + {b2} x 65536 + {b3} x 16777216 = {word}.")
}

fn tell_sent(rt: &impl Print, field: Field) -> io::Result<()> {
    let sent = field.sent();
    let Field { b0, b1, b2, b3 } = field;
    println!(rt; "   As sent: the first byte is the highest,")?;
    println!(rt; "      {b0} x 16777216 + {b1} x 65536 + {b2} x 256 + {b3} = {sent}.")
}

fn tell_result(rt: &impl Print, sent: u32, loaded: u32) -> io::Result<()> {
    println!(rt; "Quantity as sent: {sent}")?;
    println!(rt; "Quantity as the card loads the word: {loaded}")?;
    if sent == loaded {
        println!(rt; "The two agree: this field reads the same from either end.")
    } else {
        println!(rt;
            "The two differ: the sender puts the highest byte first, the card's word load the lowest."
        )
    }
}

fn tell(rt: &(impl Print + AllocGlobal), text: &str, field: Field) -> anyhow::Result<()> {
    let Field { b0, b1, b2, b3 } = field;
    println!(rt; "Order line: {text}")?;
    println!(rt;
        "1. Its quantity field is the bytes {b0} {b1} {b2} {b3}, in the order in which they were sent."
    )?;
    tell_stores(rt, field)?;
    let finding = receive(rt.alloc(), field)?;
    tell_loads(rt, finding)?;
    tell_sent(rt, field)?;
    tell_result(rt, field.sent(), finding.word)?;
    Ok(())
}

fn main(rt: HostRuntime) -> ExitCode {
    let outcome = order_lines::each(&rt, |text, field| tell(&rt, text, field));
    ending::of(&rt, "order_report", outcome)
}
