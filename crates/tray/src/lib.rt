// The tray: messages as bytes, place after place. [Y1, Y8]
#![tactic(auto)]

ghost use Rattle.std.specs.Prelude.{◌≡◌, ◌+◌, ◌*◌, ◌<◌, ◌≤◌, length};
ghost use Rattle.model.specs.Basics.{All};
ghost use Rattle.model.specs.Tray.{members};
ghost use Rattle.verdict.specs.Verdict.{to_local, to_locals};
ghost use Rattle.tray.specs.Tray.{Small, head_of, tail_of, message_of, message_from, places_in, put_message, Told};

use model::{Id, Lrn, Message, Tn, limit};

// The size of a message in bytes.
pub const MESSAGE_SIZE: usize = 24;

// How many whole places a tray has.
pub fn places(tray: &[u8]) -> usize
    ensures { result ≡ places_in tray.now }
{
    tray.len() / MESSAGE_SIZE
}

// TN 34 bits, version number 16, status 4, provider 6, sort 4.
pub fn head_of(m: Message) -> u64
    requires { Small m }
    ensures { result ≡ head_of m }
{
    (m.id.tn.0 * 65536 + m.id.number as u64) * 16384
        + (((m.status as u64) * 64 + m.provider as u64) * 16 + m.sort as u64)
}

// LRN 34 bits, Local SMS 1, spare 29.
pub fn tail_of(m: Message) -> u64
    requires { Small m }
    ensures { result ≡ tail_of m }
{
    (m.lrn.0 * 2 + u64::from(m.local)) * 536870912
}

// The message that three words are.
pub fn message_of(head: u64, tail: u64, failed: u64) -> Message
    ensures { result ≡ message_of head tail failed }
{
    Message {
        local: (tail >> 29) % 2 == 1,
        provider: ((head >> 4) % 64) as u8,
        sort: ((head >> 0) % 16) as u8,
        id: Id {
            tn: Tn((head >> 30) % 17179869184),
            number: ((head >> 14) % 65536) as u16,
        },
        status: ((head >> 10) % 16) as u8,
        failed,
        lrn: Lrn((tail >> 30) % 17179869184),
    }
}

// The message at a place of the tray.
pub fn message_at(tray: &[u8], place: usize) -> Message
    requires { place < places_in tray.now }
    ensures { result ≡ message_from tray.now (24 * place) }
{
    let at = MESSAGE_SIZE * place;
    let head = octets::u64_at(tray, at);
    let tail = octets::u64_at(tray, at + 8);
    let failed = octets::u64_at(tray, at + 16);
    message_of(head, tail, failed)
}

// The message stands at the place, and all else stays.
pub fn put_message(tray: &mut [u8], place: usize, m: Message)
    requires { (place < places_in tray.old) × Small m }
    ensures { tray.new ≡ put_message tray.old place m }
{
    let at = MESSAGE_SIZE * place;
    let head = head_of(m);
    let tail = tail_of(m);
    octets::put_u64(tray, at, head);
    octets::put_u64(tray, at + 8, tail);
    octets::put_u64(tray, at + 16, m.failed);
}

// The same message to a provider's Local SMS.
pub fn to_local(m: Message, provider: u8) -> Message
    ensures { result ≡ to_local m provider }
{
    Message {
        local: true,
        provider,
        ..m
    }
}

// One message for each provider of the set, rising, from a place on; how many were put. [Y5]
pub fn put_downloads(tray: &mut [u8], from: usize, m: Message, set: u64) -> usize
    requires set_bound { from + length (to_locals m (members set)) ≤ places_in tray.old }
    requires all { All Small (to_locals m (members set)) }
    ensures { Told (to_locals m (members set)) from tray.old tray.new result }
{
    let mut at = from;
    for provider in 1..=limit::PROVIDERS {
        if systems::has(set, provider) {
            put_message(tray, at, to_local(m, provider));
            at += 1;
        }
    }
    at - from
}
