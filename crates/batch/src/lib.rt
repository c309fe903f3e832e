// Many event records on one table: its soundness is checked once, and each event is then a step.
#![tactic(auto)]

ghost use Rattle.std.specs.Prelude.{◌≡◌, true, map, ◌+◌, ◌*◌, ◌/◌, ◌%◌, ◌≤◌, suc, length, drop};
ghost use Rattle.providers.specs.Providers.{listed, entry_of};
ghost use Rattle.scan.specs.Sound.{SoundTable};
ghost use Rattle.tray.specs.Tray.{message_size, places_in};
ghost use Rattle.checks.specs.Checks.{fitting, soundness_lent};
ghost use Rattle.packing.specs.Layout.{RECORD};
ghost use Rattle.batch.specs.Batch.{records_in, Stand, result_at, steps, begin, refused_with, Went, RunOn, Turned};

use model::{Marks, limit};
use record::RECORD;
use tray::MESSAGE_SIZE;

// The outcome of the whole, how many events were done, and how many messages stand in the tray.
#[repr(C)]
#[derive(Clone, Copy)]
pub struct Ran {
    pub outcome: u64,
    pub events: u64,
    pub messages: u64,
}

// What is lent to every event: the provider list's marks, the books and R.
#[derive(Clone, Copy)]
struct Lent<'a> {
    marks: Marks,
    books: &'a [u8],
    most: u8,
}

// After an event: the used rows, and the messages so far.
#[derive(Clone, Copy)]
pub struct Turn {
    pub used: usize,
    pub messages: usize,
}

// One record, the i-th.
fn one(
    table: &mut [u8],
    n: usize,
    lent: Lent,
    event: &[u8],
    tray: &mut [u8],
    messages: usize,
    outs: &mut [u8],
    i: usize,
) -> Turn
    requires sound_table { SoundTable table.old n }
    requires table_value { (soundness_lent (Some lent.marks) lent.books.now table.old ≡ Some n)
        × (fitting lent.most (places_in (drop (message_size * messages) tray.old)) ≡ true) × (2 * i + 2 ≤ length outs.old)
        × (message_size * messages ≤ length tray.old) }
    ensures { (s : Stand)
        → s ≡ record { table = table.entry.now; tray = tray.old; outs = outs.old; events = i; messages = messages }
        → Turned (Some lent.entry.marks) lent.entry.books.now
        (result_at (Some lent.entry.marks) lent.entry.books.now lent.entry.most event.now s) s
        (record { table = table.exit.now; tray = tray.new; outs = outs.new; events = suc i; messages = result.messages })
        result.used }
{
    let at = MESSAGE_SIZE * messages;
    let a = engine::step::on_fitting(
        table,
        n,
        lent.marks,
        lent.books,
        lent.most,
        event,
        &mut tray[at..],
    );
    outcomes::note(outs, i, a);
    let used = table::count::used(table, n);
    Turn {
        used,
        messages: messages + a.count as usize,
    }
}

// The records, in order, while 64 places are left.
fn all(
    table: &mut [u8],
    n: usize,
    lent: Lent,
    events: &[u8],
    tray: &mut [u8],
    outs: &mut [u8],
) -> Ran
    requires sound_table { SoundTable table.old n }
    requires table_value { (soundness_lent (Some lent.marks) lent.books.now table.old ≡ Some n)
        × (fitting lent.most (places_in tray.old) ≡ true)
        × (2 * (length events.now / RECORD) ≤ length outs.old) }
    ensures { Went 0 (steps (Some lent.entry.marks) lent.entry.books.now lent.entry.most (records_in events.now)
        (begin table.old tray.old outs.old)) table.new tray.new
        outs.new result }
{
    let count = events.len() / RECORD;
    let mut used = n;
    let mut messages: usize = 0;
    for i in 0..count {
        if (tray.len() - MESSAGE_SIZE * messages) / MESSAGE_SIZE < limit::PLACES {
            return Ran {
                outcome: 0,
                events: i as u64,
                messages: messages as u64,
            };
        }
        let from = RECORD * i;
        let to = from + RECORD;
        let t = one(
            table,
            used,
            lent,
            &events[from..to],
            tray,
            messages,
            outs,
            i,
        );
        used = t.used;
        messages = t.messages;
    }
    Ran {
        outcome: 0,
        events: count as u64,
        messages: messages as u64,
    }
}

// Kept: the outcome is a number, which lupinenblatt_run answers to C.
fn refused(outcome: u64) -> Ran
    ensures { result ≡ refused_with outcome }
{
    Ran {
        outcome,
        events: 0,
        messages: 0,
    }
}

// A run on a sound table.
fn on_table(
    table: &mut [u8],
    n: usize,
    lent: Lent,
    events: &[u8],
    tray: &mut [u8],
    outs: &mut [u8],
) -> Ran
    requires sound_table { SoundTable table.old n }
    requires table_value { soundness_lent (Some lent.marks) lent.books.now table.old ≡ Some n }
    ensures { RunOn (Some lent.entry.marks) lent.entry.books.now lent.entry.most events.now
        table.old tray.old outs.old table.new tray.new outs.new result }
{
    let places = tray::places(tray);
    let fits = checks::fit(lent.most, places);
    if !fits {
        return refused(1);
    }
    if outs.len() < 2 * (events.len() / RECORD) {
        return refused(1);
    }
    if events.len() % RECORD != 0 {
        return refused(2);
    }
    all(table, n, lent, events, tray, outs)
}

// Event records on a table, with the provider list, the books, R, a tray, and two bytes for each event's outcome and count.
pub fn run(
    table: &mut [u8],
    providers: &[u8],
    books: &[u8],
    most: u8,
    events: &[u8],
    tray: &mut [u8],
    outs: &mut [u8],
) -> Ran
    ensures { RunOn (listed (map entry_of providers.now)) books.now most events.now
        table.old tray.old outs.old table.new tray.new outs.new result }
{
    let listed = providers::marks_of_bytes(providers);
    if let Some(marks) = listed {
        if let Some(used) = checks::lent(listed, books, table) {
            let lent = Lent { marks, books, most };
            return on_table(table, used, lent, events, tray, outs);
        }
    }
    refused(1)
}
