use crate::{Packet, PacketKind, Port, QueueFault, Source};
use std::alloc::{AllocError, Global};
use std::test::Fail;

const SOURCE: Source = Source {
    pid: 2,
    value: 1,
    object: 4,
};

/// The packet of a wait of this source.
fn signal(source: Source, key: u64) -> Packet {
    Packet {
        kind: PacketKind::Signal,
        key,
        trigger: 8,
        observed: 8,
        source: Some(source),
    }
}

/// The numbers of a packet, as a process gets them.
fn numbers(packet: Option<Packet>) -> Option<[u64; 4]> {
    let packet = packet?;
    Some([
        packet.key,
        packet.kind.number(),
        packet.trigger,
        packet.observed,
    ])
}

/// The key of a packet.
fn key_of(packet: Option<Packet>) -> Option<u64> {
    Some(packet?.key)
}

/// Queues the packet of a wait in a place that is reserved for it.
fn queue_wait(port: &mut Port, packet: Packet) -> Result<(), AllocError> {
    port.reserve_wait()?;
    port.queue_signal(packet);
    Ok(())
}

#[test]
fn packets_come_out_in_order(rt: HostRuntime) -> Result<(), Fail> {
    let mut port = Port::new(rt.alloc());
    assert!(rt; port.pop().is_none());
    port.reserve_wait()?;
    assert!(rt; port.queue_user(5, 6).is_ok());
    port.queue_signal(signal(SOURCE, 7));
    assert!(rt; port.queue_user(0xffff_ffff_ffff_ffff, 0).is_ok());
    assert_eq!(rt; numbers(port.pop()), Some([5, 0, 6, 0]));
    assert_eq!(rt; numbers(port.pop()), Some([7, 1, 8, 8]));
    assert_eq!(rt; numbers(port.pop()), Some([0xffff_ffff_ffff_ffff, 0, 0, 0]));
    assert!(rt; port.pop().is_none());
    Ok(())
}

#[test]
fn calls_queue_at_most_2048_packets(rt: HostRuntime) -> Result<(), Fail> {
    let mut port = Port::new(rt.alloc());
    for n in 0..2048 {
        assert!(rt; port.queue_user(n, 0).is_ok());
    }
    assert_eq!(rt; port.queue_user(2048, 0), Err(QueueFault::ShouldWait));
    queue_wait(&mut port, signal(SOURCE, 9))?;
    assert_eq!(rt; port.queue_user(2048, 0), Err(QueueFault::ShouldWait));
    assert_eq!(rt; numbers(port.pop()), Some([0, 0, 0, 0]));
    assert!(rt; port.queue_user(2048, 0).is_ok());
    assert_eq!(rt; port.cancel(SOURCE, 9), 1);
    assert_eq!(rt; port.queue_user(2049, 0), Err(QueueFault::ShouldWait));
    for n in 1..2049 {
        assert_eq!(rt; numbers(port.pop()), Some([n, 0, 0, 0]));
    }
    assert!(rt; port.pop().is_none());
    Ok(())
}

#[test]
fn a_cancellation_takes_the_packets_of_one_source_and_key(rt: HostRuntime) -> Result<(), Fail> {
    let mut port = Port::new(rt.alloc());
    queue_wait(&mut port, signal(SOURCE, 5))?;
    assert!(rt; port.queue_user(5, 1).is_ok());
    queue_wait(&mut port, signal(SOURCE, 6))?;
    queue_wait(&mut port, signal(Source { pid: 3, ..SOURCE }, 5))?;
    queue_wait(&mut port, signal(Source { value: 3, ..SOURCE }, 5))?;
    queue_wait(
        &mut port,
        signal(
            Source {
                object: 3,
                ..SOURCE
            },
            5,
        ),
    )?;
    queue_wait(&mut port, signal(SOURCE, 5))?;
    assert_eq!(rt; port.cancel(SOURCE, 5), 2);
    assert_eq!(rt; port.cancel(SOURCE, 5), 0);
    assert_eq!(rt; numbers(port.pop()), Some([5, 0, 1, 0]));
    assert_eq!(rt; numbers(port.pop()), Some([6, 1, 8, 8]));
    for _ in 0..3 {
        assert_eq!(rt; numbers(port.pop()), Some([5, 1, 8, 8]));
    }
    assert!(rt; port.pop().is_none());
    Ok(())
}

#[test]
fn packets_go_at_the_front_in_the_middle_and_at_the_end(rt: HostRuntime) -> Result<(), Fail> {
    let mut port = Port::new(rt.alloc());
    for key in [1, 2, 3, 2, 4, 2] {
        queue_wait(&mut port, signal(SOURCE, key))?;
    }
    assert_eq!(rt; port.cancel(SOURCE, 1), 1);
    assert_eq!(rt; key_of(port.pop()), Some(2));
    assert_eq!(rt; port.cancel(SOURCE, 2), 2);
    assert_eq!(rt; port.cancel(SOURCE, 2), 0);
    queue_wait(&mut port, signal(SOURCE, 2))?;
    assert_eq!(rt; key_of(port.pop()), Some(3));
    assert_eq!(rt; key_of(port.pop()), Some(4));
    assert_eq!(rt; port.cancel(SOURCE, 4), 0);
    assert_eq!(rt; port.cancel(SOURCE, 2), 1);
    assert!(rt; !port.has_packet());
    assert!(rt; port.pop().is_none());
    assert!(rt; port.queue_user(7, 0).is_ok());
    assert!(rt; port.has_packet());
    assert_eq!(rt; key_of(port.pop()), Some(7));
    assert!(rt; port.pop().is_none());
    Ok(())
}

/// The first room that is made is for one packet, so that all may share a bucket.
#[test]
fn one_of_three_is_cancelled(rt: HostRuntime) -> Result<(), Fail> {
    for gone in 0..3 {
        let mut port = Port::new(rt.alloc());
        for number in 0..3 {
            queue_wait(&mut port, signal(source_of(number), 10 + number))?;
        }
        assert_eq!(rt; port.cancel(source_of(gone), 10), usize::from(gone == 0));
        assert_eq!(rt;
            port.cancel(source_of(gone), 10 + gone),
            usize::from(gone > 0)
        );
        queue_wait(&mut port, signal(source_of(gone), 20))?;
        for number in 0..3 {
            if number != gone {
                assert_eq!(rt; key_of(port.pop()), Some(10 + number));
            }
        }
        assert_eq!(rt; port.cancel(source_of(gone), 20), 1);
        assert!(rt; port.pop().is_none());
    }
    Ok(())
}

/// Each packet gets a place that an earlier one has left: 200 are cancelled where room is for fewer.
#[test]
fn cancels_and_packets_take_turns(rt: HostRuntime) -> Result<(), Fail> {
    let mut port = Port::new(rt.alloc());
    for key in 0..40 {
        queue_wait(&mut port, signal(SOURCE, key))?;
    }
    for key in 0..200 {
        assert_eq!(rt; port.cancel(SOURCE, key + 20), 1);
        assert_eq!(rt; port.cancel(SOURCE, key + 20), 0);
        queue_wait(&mut port, signal(SOURCE, key + 40))?;
    }
    for key in 0..20 {
        assert_eq!(rt; key_of(port.pop()), Some(key));
    }
    for key in 220..230 {
        assert_eq!(rt; key_of(port.pop()), Some(key));
        assert_eq!(rt; port.cancel(SOURCE, 459 - key), 1);
    }
    assert!(rt; port.pop().is_none());
    Ok(())
}

/// Queues the packet of a call, and once more where there was no memory for it.
fn queue_again(port: &mut Port, key: u64) -> bool {
    match port.queue_user(key, 0) {
        Ok(()) => true,
        Err(fault) => fault == QueueFault::NoMemory && port.queue_user(key, 0).is_ok(),
    }
}

/// Under `rt try --test --fail-alloc N` the Nth allocation is refused; else each call succeeds.
#[test]
fn a_refused_place_is_found_once_more(rt: HostRuntime) -> Result<(), Fail> {
    let mut port = Port::new(rt.alloc());
    for n in 0..20 {
        assert!(rt; queue_again(&mut port, n));
        if queue_wait(&mut port, signal(SOURCE, n + 20)).is_err() {
            queue_wait(&mut port, signal(SOURCE, n + 20))?;
        }
    }
    for n in 0..20 {
        assert_eq!(rt; key_of(port.pop()), Some(n));
        assert_eq!(rt; key_of(port.pop()), Some(n + 20));
    }
    assert!(rt; port.pop().is_none());
    Ok(())
}

/// Packets with the keys 1, 3, 1, 3 and 9, between which two are cancelled, and a reserved place.
fn cancelled_between(alloc: Global) -> Result<Port, Fail> {
    let mut port = Port::new(alloc);
    for key in [1, 2, 3, 1, 2, 3, 9] {
        queue_wait(&mut port, signal(SOURCE, key))?;
    }
    port.cancel(SOURCE, 2);
    port.reserve_wait()?;
    Ok(port)
}

/// One packet comes in the reserved place, and others are cancelled.
fn goes_on(port: &mut Port) -> [Option<u64>; 5] {
    if port.has_reserved() {
        port.queue_signal(signal(SOURCE, 7));
    }
    if port.cancel(SOURCE, 3) != 2 || port.has_reserved() {
        return [None; 5];
    }
    [
        key_of(port.pop()),
        key_of(port.pop()),
        key_of(port.pop()),
        key_of(port.pop()),
        key_of(port.pop()),
    ]
}

#[test]
fn a_copy_goes_on_as_the_original(rt: HostRuntime) -> Result<(), Fail> {
    let mut port = cancelled_between(rt.alloc())?;
    let mut copied = port.copy(rt.alloc())?;
    let keys = [Some(1), Some(1), Some(9), Some(7), None];
    assert!(rt; port.has_same_packets(&copied));
    assert_eq!(rt; goes_on(&mut copied), keys);
    assert!(rt; !port.has_same_packets(&copied));
    assert_eq!(rt; goes_on(&mut port), keys);
    assert!(rt; port.has_same_packets(&copied));
    assert!(rt; !copied.copy(rt.alloc())?.has_packet());
    Ok(())
}

#[test]
fn packets_are_compared_and_not_their_places(rt: HostRuntime) -> Result<(), Fail> {
    let port = cancelled_between(rt.alloc())?;
    let mut other = Port::new(rt.alloc());
    for key in [1, 3, 1, 3] {
        queue_wait(&mut other, signal(SOURCE, key))?;
    }
    assert!(rt; !port.has_same_packets(&other));
    let mut differing = other.copy(rt.alloc())?;
    queue_wait(&mut other, signal(SOURCE, 9))?;
    assert!(rt; port.has_same_packets(&other));
    assert!(rt; other.has_same_packets(&port));
    queue_wait(
        &mut differing,
        Packet {
            observed: 9,
            ..signal(SOURCE, 9)
        },
    )?;
    assert!(rt; !port.has_same_packets(&differing));
    Ok(())
}

/// The source with this number, of which each of three parts tells two apart.
fn source_of(number: u64) -> Source {
    Source {
        pid: 2 + number % 2,
        value: if number / 2 % 2 == 0 { 1 } else { 5 },
        object: 4 + number / 4 % 2,
    }
}

/// Packets as a plain program keeps them: number of the source, or 8 for a call, key and word.
#[derive(Drop)]
struct Plain {
    packets: Vec<[u64; 3]>,
}

impl Plain {
    fn pop(&mut self) -> Option<[u64; 3]> {
        if self.packets.is_empty() {
            return None;
        }
        Some(self.packets.remove(0))
    }

    fn cancel(&mut self, number: u64, key: u64) -> usize {
        let before = self.packets.len();
        self.packets
            .retain(|packet| packet[0] != number || packet[1] != key);
        before - self.packets.len()
    }
}

/// Queues the packet of a wait, or of a call where there is no such source; once more where there
/// was no memory for it.
fn queue_one(port: &mut Port, [number, key, word]: [u64; 3]) -> bool {
    if number == 8 {
        return port.queue_user(key, word).is_ok() || port.queue_user(key, word).is_ok();
    }
    if port.reserve_wait().is_err() && port.reserve_wait().is_err() {
        return false;
    }
    port.queue_signal(Packet {
        trigger: word,
        ..signal(source_of(number), key)
    });
    true
}

/// The numbers of a packet that the plain program keeps, as a process gets them.
fn plain_numbers(packet: Option<[u64; 3]>) -> Option<[u64; 4]> {
    let [number, key, word] = packet?;
    if number == 8 {
        return Some([key, 0, word, 0]);
    }
    Some([key, 1, word, 8])
}

/// Thousands of steps chosen by a fixed rule, each done by the port and by the plain program. Of
/// eight sources with four keys many packets lie at the port at once. With the fifth key there is
/// none, and in the few buckets others lie where such would.
#[test]
fn a_port_does_what_the_plain_program_does(rt: HostRuntime) -> Result<(), Fail> {
    let mut port = Port::new(rt.alloc());
    let mut plain = Plain {
        packets: Vec::new(rt.alloc()),
    };
    let mut state: u64 = 1;
    for word in 0..3000 {
        state = state
            .wrapping_mul(6_364_136_223_846_793_005)
            .wrapping_add(1);
        let number = (state >> 33) % 9;
        let key = (state >> 40) % 5;
        let choice = (state >> 50) % 32;
        if choice < 22 {
            let queued = [number, key.min(3), word];
            assert!(rt; queue_one(&mut port, queued));
            if plain.packets.push(queued).is_err() {
                plain.packets.push(queued)?;
            }
        } else if choice < 29 {
            assert_eq!(rt; numbers(port.pop()), plain_numbers(plain.pop()));
        } else if number < 8 {
            assert_eq!(rt;
                port.cancel(source_of(number), key),
                plain.cancel(number, key)
            );
        }
    }
    for _ in 0..plain.packets.len() {
        assert_eq!(rt; numbers(port.pop()), plain_numbers(plain.pop()));
    }
    assert!(rt; port.pop().is_none());
    Ok(())
}
