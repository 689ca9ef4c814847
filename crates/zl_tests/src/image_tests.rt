//! Images that are spelled again, or built. What decoding answers to wrong bytes is tried on the program.

use std::alloc::Global;
use std::test::*;
use zl_code::{Columns, DecodeFault, Ending, Image, Row, Undecoded, decode, encode, upgrade};
use zl_rights::Condition;

/// A raw program of eight instructions, which makes an event, signals, duplicates and closes it, and
/// exits.
const EIGHT_BYTES: [u8; 148] = [
    0x5a, 0x4c, 0x41, 0x42, 1, 1, 8, 0, 0, 0, 0, 0, 0x64, 0, 0, 0, 0, 0, 0, 0, //
    0x46, 2, 3, 0, 0, 0, 0, 0, 0, 0, 0, 0, 0, 0, 0, 0, //
    0x01, 5, 0, 0, 0, 0, 0, 0, 8, 0, 0, 0, 0, 0, 0, 0, //
    0x47, 2, 3, 0, 5, 0, 0, 0, 0, 0, 0, 0, 0, 0, 0, 0, //
    0x41, 2, 3, 4, 0, 0, 0, 0, 0, 0, 0, 0x80, 0, 0, 0, 0, //
    0x40, 2, 3, 0, 0, 0, 0, 0, 0, 0, 0, 0, 0, 0, 0, 0, //
    0x40, 2, 4, 0, 0, 0, 0, 0, 0, 0, 0, 0, 0, 0, 0, 0, //
    0x40, 2, 4, 0, 0, 0, 0, 0, 0, 0, 0, 0, 0, 0, 0, 0, //
    0x53, 0, 0, 0, 0, 0, 0, 0, 0, 0, 0, 0, 0, 0, 0, 0,
];

/// One `process_exit`.
const SMALLEST: [u8; 36] = [
    0x5a, 0x4c, 0x41, 0x42, 1, 0, 1, 0, 0, 0, 0, 0, 1, 0, 0, 0, 0, 0, 0, 0, //
    0x53, 0, 0, 0, 0, 0, 0, 0, 0, 0, 0, 0, 0, 0, 0, 0,
];

/// All five needs, a start handle (an event to signal and to wait for), a slot array (256 places for
/// handles of any kind with all rights), and `swap r1, r2, 0`.
const DECLARED: [u8; 52] = [
    0x5a, 0x4c, 0x41, 0x42, 1, 0, 1, 0, 0, 0, 0, 0, 0x64, 0, 0, 0, 0x1f, 1, 1, 0, //
    5, 0, 0, 0, 0, 0x50, 0, 0, //
    0, 0, 0, 1, 0x0f, 0xf6, 3, 0, //
    0x0c, 1, 2, 0, 0, 0, 0, 0, 0, 0, 0, 0, 0, 0, 0, 0,
];

/// Whether the image that the bytes spell is spelled by them.
fn is_spelled_again(alloc: Global, bytes: &[u8]) -> Result<bool, Undecoded> {
    let image = decode(alloc, bytes)?;
    Ok(encode(alloc, &image)?.as_slice() == bytes)
}

#[test]
fn largest_image(rt: HostRuntime) -> Result<(), Fail> {
    let mut bytes = Vec::new(rt.alloc());
    bytes.extend_from_slice(&DECLARED[..20])?;
    for _ in 0..7 {
        bytes.extend_from_slice(&DECLARED[20..28])?;
    }
    for _ in 0..8 {
        bytes.extend_from_slice(&DECLARED[28..36])?;
    }
    for _ in 0..4096 {
        bytes.extend_from_slice(&DECLARED[36..])?;
    }
    for (offset, value) in [(6, 0), (7, 16), (17, 7), (18, 8)] {
        if let Some(byte) = bytes.get_mut(offset) {
            *byte = value;
        }
    }
    assert_eq!(rt; bytes.len(), 65_676);
    let image = decode(rt.alloc(), &bytes)
        .ok()
        .ok_or("the bytes are an image")?;
    assert_eq!(rt; image.len(), 4096);
    assert!(rt; !image.needs(Condition::NewAny));
    let back = encode(rt.alloc(), &image).ok().ok_or("memory was refused")?;
    assert_eq!(rt; back.as_slice(), bytes.as_slice());
    Ok(())
}

#[test]
fn each_byte_changed(rt: HostRuntime) {
    let mut images: u32 = 0;
    for offset in 0..36 {
        for value in 0..=255 {
            let mut bytes = SMALLEST;
            bytes[offset] = value;
            if let Ok(same) = is_spelled_again(rt.alloc(), &bytes) {
                assert!(rt; same);
                images = images.saturating_add(1);
            }
        }
    }
    // Each offset's own value; version 2; the raw mark; the memory 0 to 65,536; the budget 1 to 1,000,000 (254
    // low bytes, 255 and 15 more); the needs; 48 more opcodes; 31 more registers.
    assert_eq!(rt;
        images,
        36 + 1 + 1 + (255 + 255 + 1) + (254 + 255 + 15) + 31 + 48 + 31
    );
}

/// The image of `DECLARED` without its instruction, one thing after the other.
fn declared_again(alloc: Global) -> Result<Vec<u8>, Undecoded> {
    let declared = decode(alloc, &DECLARED)?;
    let mut image = Image::new(alloc);
    image.set_budget(100);
    for condition in [
        Condition::NewProcess,
        Condition::NewEvent,
        Condition::NewAny,
        Condition::NewEventpair,
        Condition::NewPort,
        Condition::NewChannel,
        Condition::NewEvent,
    ] {
        image.add_need(condition);
    }
    for start in declared.starts() {
        if start.is_in_range() && image.starts().len() < Image::MOST_STARTS {
            image.push_start(*start)?;
        }
    }
    for array in declared.slots() {
        if array.is_in_range() && image.slots().len() < Image::MOST_SLOT_ARRAYS {
            image.push_slot_array(*array)?;
        }
    }
    Ok(encode(alloc, &image)?)
}

/// It passes whichever allocation is refused: the answer is the image or `NoMemory`.
#[test]
fn built_one_by_one(rt: HostRuntime) {
    match declared_again(rt.alloc()) {
        Ok(bytes) => {
            let mut expected = [0; 36];
            expected.copy_from_slice(&DECLARED[..36]);
            expected[6] = 0;
            assert_eq!(rt; bytes.as_slice(), expected.as_slice());
        }
        Err(undecoded) => assert_eq!(rt; undecoded.fault(), DecodeFault::NoMemory),
    }
}

/// What the bytes of an image of version 1 are in version 2, or the instruction that holds it back.
fn upgraded(alloc: Global, bytes: &[u8]) -> Result<Result<Vec<u8>, usize>, Undecoded> {
    match upgrade(decode(alloc, bytes)?) {
        Ok(image) => Ok(Ok(encode(alloc, &image)?)),
        Err(kept) => Ok(Err(kept.at)),
    }
}

#[test]
fn upgrades(rt: HostRuntime) -> Result<(), Fail> {
    let mut second = EIGHT_BYTES;
    second[4] = 2;
    for bytes in [EIGHT_BYTES, second] {
        let image = upgraded(rt.alloc(), &bytes).ok().ok_or("it is an image")?;
        assert!(rt; image.is_ok_and(|image| image.as_slice() == second.as_slice()));
    }
    // Opcodes that version 2 knows, in the third and in the sixth instruction.
    let mut held = EIGHT_BYTES;
    held[20 + 16 * 2] = 27;
    held[20 + 16 * 5] = 26;
    let image = upgraded(rt.alloc(), &held).ok().ok_or("it is an image")?;
    assert!(rt; image.is_err_and(|at| at == 2));
    // No version knows this one.
    held[20 + 16 * 2] = 28;
    held[20 + 16 * 5] = 28;
    let image = upgraded(rt.alloc(), &held).ok().ok_or("it is an image")?;
    assert!(rt; image.is_ok());
    Ok(())
}

#[test]
fn rows_by_name(rt: HostRuntime) {
    assert!(rt;
        matches!(
            Row::named(b"chan_write"),
            Some(Row {
                opcode: 68,
                columns: Columns {
                    fields: [_, _, _, _],
                    ending: Ending::Handles,
                    ..
                },
                ..
            })
        )
    );
    assert!(rt; Row::named(b"chan").is_none());
    assert!(rt; Row::of_opcode(0x53).is_some_and(|row| row.name == "process_exit"));
}

/// It passes whichever allocation is refused: the answer is the image or `NoMemory`.
#[test]
fn refused_memory(rt: HostRuntime) {
    match is_spelled_again(rt.alloc(), &EIGHT_BYTES) {
        Ok(same) => assert!(rt; same),
        Err(undecoded) => assert_eq!(rt; undecoded.fault(), DecodeFault::NoMemory),
    }
}
