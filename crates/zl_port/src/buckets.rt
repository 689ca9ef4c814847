ghost use Rattle.std.specs.Prelude.{◌≡◌, ◌<◌, IfSome};
ghost use Rattle.zl_port.specs.Buckets.{bucket, bucket_of, folded, mixed};

use crate::packet::{Packet, PacketKind, Source};

/// The odd number nearest to 2^64 over the golden ratio, whose products are spread well.
const FACTOR: u64 = 0x9e37_79b9_7f4a_7c15;

/// The high half of a word goes into its low half.
#[tactic(auto, unfolding(crate::specs::Buckets::folded))]
fn folded_word(word: u64) -> u64
    ensures { result ≡ folded word }
{
    word ^ (word >> 32)
}

/// One word more is mixed into those before it.
#[tactic(auto, unfolding(crate::specs::Buckets::mixed))]
fn mixed_word(before: u64, word: u64) -> u64
    ensures { result ≡ mixed before word }
{
    folded_word(before.wrapping_add(word).wrapping_mul(FACTOR))
}

/// The bucket, of so many, of the packets that waits of this source gave with this key.
#[tactic(auto, unfolding(crate::specs::Buckets::bucket))]
pub(crate) fn bucket_for(buckets: usize, source: Source, key: u64) -> usize
    requires { 0 < buckets }
    ensures value { result ≡ bucket buckets source key }
    ensures within { result < buckets }
{
    let of_handle = mixed_word(mixed_word(0, source.pid), u64::from(source.value));
    let of_all = mixed_word(mixed_word(of_handle, source.object), key);
    (of_all % buckets as u64) as usize
}

/// The bucket of a packet, if a wait gave it.
pub(crate) fn bucket_of_packet(buckets: usize, packet: &Packet) -> Option<usize>
    requires { 0 < buckets }
    ensures value { result ≡ bucket_of buckets packet.now }
    ensures within { IfSome result (λ place. place < buckets) }
{
    if packet.kind != PacketKind::Signal {
        return None;
    }
    let Some(source) = packet.source else {
        return None;
    };
    Some(bucket_for(buckets, source, packet.key))
}
