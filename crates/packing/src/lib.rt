// A record's fields in three words of 64 bits; the time runs from the second into the third.
#![tactic(auto)]

ghost use Rattle.std.specs.Prelude.{◌≡◌, [], ◌∷◌, ◌%◌, ◌^◌, ◌<◌};
ghost use Rattle.octets.specs.Fields.{join};
ghost use Rattle.packing.specs.InWords.{third_widths, event_of_words, Fitted, Packed};

use model::{Event, Lrn, Tn};

#[derive(Clone, Copy)]
pub struct RecordWords {
    pub first: u64,
    pub second: u64,
    pub third: u64,
}

pub fn unpack(first: u64, second: u64, third: u64) -> Event
    ensures { result ≡ event_of_words first second third }
{
    let tn = Tn((first >> 0) % 0x4_0000_0000);
    let lrn = Lrn((second >> 30) % 0x4_0000_0000);
    Event {
        kind: ((first >> 56) % 256) as u8,
        sender: ((first >> 50) % 64) as u8,
        other: ((first >> 44) % 64) as u8,
        mark: ((first >> 42) % 4) as u8,
        cause: ((first >> 34) % 256) as u8,
        tn,
        lrn,
        version: ((second >> 14) % 65536) as u16,
        time: (((second >> 0) % 16384) * 262144 + (third >> 46) % 262144) as u32,
        due: ((third >> 14) % 4294967296) as u32,
        within: ((third >> 13) % 2) as u8,
    }
}

// The time's low part, due and the version type.
fn third_of(e: Event) -> u64
    requires { e.within < 2 }
    ensures { result ≡ join third_widths (e.time % 2 ^ 18 ∷ e.due ∷ e.within ∷ 0 ∷ []) }
{
    let t = e.time as u64;
    let d = e.due as u64;
    (((t % 262144) * 4294967296 + d) * 2 + e.within as u64) * 8192
}

pub fn pack(e: Event) -> RecordWords
    requires { Fitted e }
    ensures { Packed e result.first result.second result.third }
{
    let t = e.time as u64;
    let head = (((e.kind as u64) * 64 + e.sender as u64) * 64 + e.other as u64) * 4 + e.mark as u64;
    let third = third_of(e);
    RecordWords {
        first: (head * 256 + e.cause as u64) * 0x4_0000_0000 + e.tn.0,
        second: (e.lrn.0 * 65536 + e.version as u64) * 16384 + t / 262144,
        third,
    }
}
