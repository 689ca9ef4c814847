use crate::{ChannelEnd, Handles, Message, PushFault};
use std::alloc::Global;
use std::test::Fail;
use zl_rights::{Entry, Kind, Rights};

fn event(koid: u64) -> Entry {
    Entry {
        koid,
        kind: Kind::Event,
        rights: Rights::READ,
    }
}

fn message(alloc: Global, bytes: usize, koids: &[u64]) -> Result<Message, Fail> {
    let mut handles = Handles::new(alloc);
    for koid in koids {
        handles.push(event(*koid))?;
    }
    Ok(Message {
        bytes: vec![in alloc; 7; bytes]?,
        handles,
    })
}

/// The sizes of a message that was refused for its size.
fn refused_sizes(pushed: Result<(), PushFault>) -> Option<(usize, usize)> {
    let Err(PushFault::OutOfRange(message)) = pushed else {
        return None;
    };
    Some((message.bytes.len(), message.handles.len()))
}

#[test]
fn a_message_has_at_most_65536_bytes_and_64_handles(rt: HostRuntime) -> Result<(), Fail> {
    let mut end = ChannelEnd::new(rt.alloc());
    assert!(rt; end.push(message(rt.alloc(), 65_536, &[])?).is_ok());
    let refused = end.push(message(rt.alloc(), 65_537, &[])?);
    assert_eq!(rt; refused_sizes(refused), Some((65_537, 0)));
    assert!(rt; end.push(message(rt.alloc(), 0, &[9; 64])?).is_ok());
    let refused = end.push(message(rt.alloc(), 0, &[9; 65])?);
    assert_eq!(rt; refused_sizes(refused), Some((0, 65)));
    assert_eq!(rt; end.front_sizes(), Some((65_536, 0)));
    Ok(())
}

#[test]
fn messages_come_out_in_order(rt: HostRuntime) -> Result<(), Fail> {
    let mut end = ChannelEnd::new(rt.alloc());
    assert!(rt; end.push(message(rt.alloc(), 1, &[])?).is_ok());
    assert!(rt; end.push(message(rt.alloc(), 2, &[10, 11])?).is_ok());
    assert!(rt; end.front_handles().is_empty());
    assert!(rt; matches!(end.take(), Some(m) if m.bytes.len() == 1));
    assert_eq!(rt; end.front_sizes(), Some((2, 2)));
    assert!(rt; end.front_handles() == [event(10), event(11)].as_slice());
    assert!(rt; end.drain().is_some());
    assert!(rt; end.drain().is_some());
    assert_eq!(rt; end.drain(), None);
    assert_eq!(rt; end.front_sizes(), Some((2, 0)));
    assert!(rt; end.take().is_some());
    assert!(rt; end.is_empty());
    Ok(())
}

/// More handles than lie in a message itself are copied too, and both ends go on apart.
#[test]
fn a_copy_has_messages_of_its_own(rt: HostRuntime) -> Result<(), Fail> {
    let mut end = ChannelEnd::new(rt.alloc());
    assert!(rt; end.push(message(rt.alloc(), 1, &[1, 2, 3, 4, 5])?).is_ok());
    assert!(rt; end.push(message(rt.alloc(), 2, &[])?).is_ok());
    let mut copy = end.copy(rt.alloc())?;
    assert!(rt; copy.is_same(&end));
    assert!(rt; copy.drain().is_some());
    assert!(rt; !copy.is_same(&end));
    assert!(rt; copy.take().is_some());
    assert_eq!(rt; copy.front_sizes(), Some((2, 0)));
    assert_eq!(rt; end.front_sizes(), Some((1, 5)));
    Ok(())
}

/// Pushes the message, and once more where there was no memory for it.
fn push_again(end: &mut ChannelEnd, message: Message) -> bool {
    match end.push(message) {
        Ok(()) => true,
        Err(PushFault::NoMemory(message)) => end.push(message).is_ok(),
        Err(PushFault::OutOfRange(_)) => false,
    }
}

/// Under `rt try --test --fail-alloc N` the Nth allocation is refused; else each push succeeds.
#[test]
fn a_push_without_memory_hands_the_message_back(rt: HostRuntime) {
    let mut end = ChannelEnd::new(rt.alloc());
    for _ in 0..20 {
        let message = Message {
            bytes: Vec::new(rt.alloc()),
            handles: Handles::from_buf(rt.alloc(), [event(1), event(2), event(3), event(4)]),
        };
        assert!(rt; push_again(&mut end, message));
    }
    for _ in 0..20 {
        assert_eq!(rt; end.front_sizes(), Some((0, 4)));
        assert!(rt; end.take().is_some());
    }
    assert!(rt; end.is_empty());
}

/// The rights have to be those of one handle: what two of them have together isn't enough.
#[test]
fn an_object_is_named_while_a_handle_with_the_rights_is_queued(
    rt: HostRuntime,
) -> Result<(), Fail> {
    let mut end = ChannelEnd::new(rt.alloc());
    assert!(rt; !end.has_named(10, Rights::NONE));
    assert!(rt; end.push(message(rt.alloc(), 1, &[])?).is_ok());
    assert!(rt; end.push(message(rt.alloc(), 0, &[11, 10])?).is_ok());
    assert!(rt; end.has_named(10, Rights::NONE));
    assert!(rt; end.has_named(10, Rights::READ));
    assert!(rt; !end.has_named(10, Rights::WRITE));
    assert!(rt; !end.has_named(12, Rights::NONE));
    let mut handles = Handles::new(rt.alloc());
    for kind in [Kind::Channel, Kind::Event] {
        handles.push(Entry {
            rights: kind.default_rights(),
            ..event(10)
        })?;
    }
    let last = Message {
        bytes: Vec::new(rt.alloc()),
        handles,
    };
    assert!(rt; end.push(last).is_ok());
    assert!(rt; end.has_named(10, Rights::SIGNAL_PEER));
    assert!(rt; end.has_named(10, Kind::Event.default_rights()));
    // The one lacks the right to copy, and the other that to signal the other end.
    assert!(rt; !end.has_named(10, Kind::Eventpair.default_rights()));
    assert!(rt; end.take().is_some());
    assert!(rt; end.take().is_some());
    assert!(rt; !end.has_named(11, Rights::NONE));
    assert!(rt; end.has_named(10, Rights::WRITE));
    assert!(rt; end.take().is_some());
    assert!(rt; !end.has_named(10, Rights::NONE));
    Ok(())
}
