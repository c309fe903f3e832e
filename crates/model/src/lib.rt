// The things that document 01 speaks of, as structs by value. Its rules are definitions over these very structs: specs/.
#![tactic(auto)]

// A telephone number, and a location routing number: ten digits each, never taken for one another. [N1, N2, F6]
#[derive(Clone, Copy, PartialEq, Eq)]
pub struct Tn(pub u64);

#[derive(Clone, Copy, PartialEq, Eq)]
pub struct Lrn(pub u64);

// The fields of an event record. [E1]
#[derive(Clone, Copy)]
pub struct Event {
    pub kind: u8,
    pub sender: u8,
    pub other: u8,
    // Authorization, or a reply's result: 1 yes or success, 2 no or failure.
    pub mark: u8,
    pub cause: u8,
    pub tn: Tn,
    pub lrn: Lrn,
    pub version: u16,
    pub time: u32,
    pub due: u32,
    // The version type: 1 within one provider, else 0.
    // Kept: a number, since `fits_bits` asks of any number that it is below 2, and `eleven_of` hands it on.
    pub within: u8,
}

// A record, or an event's fields, that is none of document 01's. [E5]
#[derive(Clone, Copy, PartialEq, Eq, Debug)]
pub struct Malformed;

// A version's name.
#[derive(Clone, Copy, PartialEq, Eq)]
pub struct Id {
    pub tn: Tn,
    pub number: u16,
}

// The new side: its provider, whether it has created, and what it then has. [V2]
// Kept: a mark beside the values, since `new_whole` (fault 15) is false of a row that has the one without the other.
#[derive(Clone, Copy)]
pub struct NewSide {
    pub lrn: Lrn,
    pub due: u32,
    pub provider: u8,
    pub created: bool,
}

// The old side. Authorization: 0 none, 1 yes, 2 no. [V2]
// Kept: a mark beside the values, since `old_whole` and `cause_fits` (faults 16, 19) are false of rows that have the one without the other.
#[derive(Clone, Copy)]
pub struct OldSide {
    pub provider: u8,
    pub created: bool,
    pub authorization: u8,
    pub cause: u8,
    pub due: u32,
}

// Retries used per system, three bits each: systems 1 to 21 in low, 22 to 42 in mid, 43 to 63 in high.
#[derive(Clone, Copy, PartialEq, Eq, Default)]
pub struct Retries {
    pub low: u64,
    pub mid: u64,
    pub high: u64,
}

// A version's broadcast: purpose (0 none, 1 activate, 2 modify, 3 disconnect), start, and the systems' sets, provider n at bit n.
#[derive(Clone, Copy)]
pub struct Broadcast {
    pub purpose: u8,
    pub start: u32,
    pub confirmed: u64,
    pub waiting: u64,
    pub failed: u64,
    pub retries: Retries,
}

// A subscription version. Canceller: 0 nobody, 1 the new side, 2 the old side. Fields lie in the order of the source: here and in the new
// side few bytes are left out between them, so that a version with its place takes less than the 128 bytes above which the compiler copies
// by a call of memcpy. [V0]
#[derive(Clone, Copy)]
pub struct Version {
    pub id: Id,
    pub status: u8,
    pub live: bool,
    pub stamp: u32,
    pub new: NewSide,
    pub old: OldSide,
    pub canceller: u8,
    // The window has run out.
    pub window: bool,
    // A move inside one provider: the version type.
    pub within: bool,
    pub cast: Broadcast,
}

// A message: to a provider's Local SMS or else its SOA. [Y1]
#[derive(Clone, Copy)]
pub struct Message {
    pub local: bool,
    pub provider: u8,
    pub sort: u8,
    pub id: Id,
    pub status: u8,
    pub failed: u64,
    pub lrn: Lrn,
}

// A provider's two marks, as the provider list lends them. [B1, F7]
#[repr(C)]
#[derive(Clone, Copy)]
pub struct Provider {
    pub present: bool,
    pub local: bool,
}

// The two marks of all providers, as sets.
#[derive(Clone, Copy, PartialEq, Eq, Default)]
pub struct Marks {
    pub present: u64,
    pub local: u64,
}

// What an event gets. The numbers are those of `number_of`: 15 to 17 are none.
#[derive(Clone, Copy, PartialEq, Eq)]
pub enum Outcome {
    Done = 0,
    Unsound = 1,
    Malformed = 2,
    Absent = 3,
    Unlisted = 4,
    Unknown = 5,
    Standless = 6,
    Misplaced = 7,
    Early = 8,
    Unfit = 9,
    Busy = 10,
    Unawaited = 11,
    NotCurrent = 12,
    Full = 13,
    Exhausted = 14,
    AnotherDue = 18,
}

// What selection says of a provider, and why it is not asked. The numbers are those of `class_number`. [A8.1]
#[derive(Clone, Copy, PartialEq, Eq)]
pub enum Class {
    Selected = 0,
    NotPresent = 1,
    NoLocal = 2,
    FilterOnly = 3,
    FiltersBoth = 4,
}

// The numbers by which records, rows and messages name these things. Code above writes the names.

// Kinds of events. [E2]
// Kept: numbers, since an Event holds any kind that a record's byte says; `kind_fits` is false of those that are none.
pub mod kind {
    pub const NEW_CREATES: u8 = 1;

    pub const OLD_CREATES: u8 = 2;

    pub const NEW_MODIFIES: u8 = 3;

    pub const OLD_MODIFIES: u8 = 4;

    pub const ACTIVATE: u8 = 5;

    pub const CANCEL: u8 = 6;

    pub const ACKNOWLEDGE_CANCEL: u8 = 7;

    pub const RESOLVE_CONFLICT: u8 = 8;

    pub const MODIFY_ACTIVE: u8 = 9;

    pub const DISCONNECT: u8 = 10;

    pub const REPLY: u8 = 11;

    pub const SILENCE: u8 = 12;

    pub const WINDOW_RAN_OUT: u8 = 13;

    pub const RESEND: u8 = 14;

    pub const PURGE: u8 = 15;

    // The last of them.
    pub const LAST: u8 = PURGE;
}

// An event's mark, and an old side's authorization. [E1, V2]
// Kept: numbers, since a record and a row hold any mark of two bits; `kind_fits` and `old_whole` (fault 16) are false of 3.
pub mod mark {
    pub const NONE: u8 = 0;

    pub const YES: u8 = 1;

    pub const NO: u8 = 2;
}

// Statuses of a version. [V1]
// Kept: numbers, since a row holds any status of four bits; `is_status` (fault 7) is false of those that are none.
pub mod status {
    pub const PENDING: u8 = 0;

    pub const CONFLICT: u8 = 1;

    pub const CANCEL_PENDING: u8 = 2;

    pub const SENDING: u8 = 3;

    pub const FAILED: u8 = 4;

    pub const PARTIAL_FAILURE: u8 = 5;

    pub const ACTIVE: u8 = 6;

    pub const OLD: u8 = 7;

    pub const CANCELED: u8 = 8;
    // The last of them.
    pub const LAST: u8 = CANCELED;
}

// Purposes of a broadcast. [V8]
// Kept: numbers, since `is_purpose` of `in_range` (fault 13) asks it of any number.
pub mod purpose {
    pub const NONE: u8 = 0;

    pub const ACTIVATE: u8 = 1;

    pub const MODIFY: u8 = 2;

    pub const DISCONNECT: u8 = 3;

    pub const LAST: u8 = DISCONNECT;
}

// Who cancelled. [K1]
// Kept: numbers, since a row holds any canceller of two bits; `is_canceller` (fault 11) is false of 3.
pub mod canceller {
    pub const NOBODY: u8 = 0;

    pub const NEW: u8 = 1;

    pub const OLD: u8 = 2;

    pub const LAST: u8 = OLD;
}

// Who sends, to a version. [G1]
// Kept: numbers, since `grid_rule` takes any number as a standing, and `canceller_as` reckons with it.
pub mod standing {
    pub const NEW: u8 = 0;

    pub const OLD: u8 = 1;

    pub const NPAC: u8 = 2;

    pub const OTHER: u8 = 3;
}

// Sorts of messages. A download's is DOWNLOAD and its purpose. [Y2]
// Kept: numbers, since a message in a tray has any sort of four bits (`message_of`), and a download's is a sum.
pub mod sort {
    pub const CREATION: u8 = 1;

    pub const STATUS: u8 = 2;

    pub const ATTRIBUTES: u8 = 3;

    pub const DOWNLOAD: u8 = 3;

    pub const WINDOW: u8 = 7;
}

// The largest provider, version number, cause, retry number and table, in rows; and the places that a tray has at least.
pub mod limit {
    pub const PROVIDERS: u8 = 63;

    pub const NUMBER: u16 = 65535;

    pub const CAUSE: u8 = 99;

    pub const RETRIES: u8 = 7;

    pub const ROWS: usize = 4096;

    pub const PLACES: usize = 64;
}
