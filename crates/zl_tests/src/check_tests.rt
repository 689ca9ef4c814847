//! What `check` hands back with a refusal. Which programs it refuses, where and why, is tried on the program.

use std::alloc::{AllocError, Global};
use std::test::Fail;
use zl_asm::assemble;
use zl_code::{DecodeFault, Image, decode, encode};
use zl_verify::{Refusal, RefusalCause, check, is_solved_by_names};

/// A process that starts with an event goes round without a wait.
const ROUND: [u8; 44] = [
    0x5a, 0x4c, 0x41, 0x42, 1, 0, 1, 0, 0, 0, 0, 0, 9, 0, 0, 0, 0, 1, 0, 0, //
    5, 0, 0, 0, 0x03, 0xd0, 0, 0, //
    17, 0, 0, 0, 0, 0, 0, 0, 0, 0, 0, 0, 0, 0, 0, 0,
];

/// It waits for the event each time.
const WAITS: [u8; 60] = [
    0x5a, 0x4c, 0x41, 0x42, 1, 0, 2, 0, 0, 0, 0, 0, 1, 0, 0, 0, 0, 1, 0, 0, //
    5, 0, 0, 0, 0x03, 0xd0, 0, 0, //
    73, 2, 0, 3, 4, 0, 0, 0, 0, 0, 0, 0, 0, 0, 0, 0, //
    17, 0, 0, 0, 0, 0, 0, 0, 0, 0, 0, 0, 0, 0, 0, 0,
];

/// Round a loop r2 climbs, and goes past what doesn't name it, to a test that some ways lead to, into r6
/// there and into r7 behind a block; what r7 has goes round the loop into r8.
const CLIMBS: &str = "
.version 2
.memory 4096
.budget 200
.start event 16384
loop:
addi r2, r2, 1
const r4, 1000
jz r5, one
const r4, 2000
one:
const r4, 3000
jeq r5, 7, two
addi r6, r2, 5
const r4, 4000
two:
rep 3
const r9, 5000
or r10, r6, r9
add r7, r6, r2
endrep
ld64 r11, r30, 8
wait_one r3, r0, r1, r5
mov r8, r7
jlt r2, 4294967295, loop
process_exit r8
";

/// Handles move through registers, slots and calls in a loop in which numbers climb: what a call tells
/// of a handle, and what it gives and takes.
const MOVES: &str = "
.version 2
.memory 4096
.budget 400
.need NEW_EVENT
.start channel 16398
.slots any 4 0
loop:
addi r2, r2, 1
wait_one r3, r0, r1, r5
const r11, 16
const r30, 0
chan_read_etc r3, r0, r30, r11, r12, r13, r14, 2
jz r14, none
jne r15, 5, none
jnhas r16, 4096, none
addi r20, r2, 3
take r21, r14
jz r21, none
signal r3, r21, r30, r30
handle_info r3, r21, r22, r23
const r24, 1
swap r21, r24, 0
none:
close r3, r14
close r3, r17
close r3, r21
add r25, r20, r2
event_create r3, r26
jz r26, bare
dup r3, r26, r27, 16384
addi r28, r25, 9
close r3, r27
bare:
close r3, r26
jlt r2, 4294967295, loop
process_exit r28
";

/// The image of a refusal, spelled.
fn given_back(alloc: Global, refusal: Refusal) -> Result<Vec<u8>, AllocError> {
    encode(alloc, &refusal.image)
}

#[test]
fn a_refusal_hands_the_image_back(rt: HostRuntime) -> Result<(), Fail> {
    let Ok(image) = decode(rt.alloc(), &ROUND) else {
        panic!(rt; "the image is spelled wrong");
    };
    match check(rt.alloc(), image) {
        Ok(_) => panic!(rt; "a loop without a wait is accepted"),
        Err(refusal) => assert!(rt;
            given_back(rt.alloc(), refusal)?.as_slice() == ROUND.as_slice()
        ),
    }
    Ok(())
}

/// Whether the image is accepted, or is given back for want of memory and accepted then.
fn is_accepted_at_last(alloc: Global, image: Image) -> bool {
    match check(alloc, image) {
        Ok(checked) => checked.image().len() == 2,
        Err(refusal) => {
            refusal.at == 0
                && refusal.cause == RefusalCause::NoMemory
                && check(alloc, refusal.image).is_ok()
        }
    }
}

/// Under `rt try --test --fail-alloc N` the Nth allocation is refused; else the image is accepted at
/// once.
#[test]
fn a_check_without_memory_gives_the_image_back(rt: HostRuntime) {
    match decode(rt.alloc(), &WAITS) {
        Ok(image) => assert!(rt; is_accepted_at_last(rt.alloc(), image)),
        Err(undecoded) => assert_eq!(rt; undecoded.fault(), DecodeFault::NoMemory),
    }
}

/// Whether one look at each instruction finds the typing behind a search by what is named.
fn is_soon_solved(alloc: Global, text: &str) -> bool {
    match assemble(alloc, text) {
        Ok(image) => is_solved_by_names(alloc, &image) == Some(true),
        Err(_) => false,
    }
}

/// No clause says that a register that rose comes to each place where it is named: were one left out,
/// another look would be wanted.
#[test]
fn registers_are_carried_to_each_place(rt: HostRuntime) {
    assert!(rt; is_soon_solved(rt.alloc(), CLIMBS));
}

#[test]
fn registers_are_carried_through_calls(rt: HostRuntime) {
    assert!(rt; is_soon_solved(rt.alloc(), MOVES));
}
