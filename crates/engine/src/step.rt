// One step: any bytes get an outcome.
ghost use Rattle.std.specs.Prelude.{◌≡◌, true, map};
ghost use Rattle.providers.specs.Providers.{listed, entry_of};
ghost use Rattle.scan.specs.Sound.{SoundTable};
ghost use Rattle.tray.specs.Tray.{places_in};
ghost use Rattle.checks.specs.Checks.{fitting, soundness_lent};
ghost use Rattle.engine.specs.Step.{Stepped};

use crate::event;
use model::{Malformed, Marks};
use outcomes::Answer;

// A record on a table that is sound with its books, where all else fits.
pub fn on_fitting(
    table: &mut [u8],
    n: usize,
    marks: Marks,
    books: &[u8],
    most: u8,
    event: &[u8],
    tray: &mut [u8],
) -> Answer
    requires sound_table { SoundTable table.old n }
    requires table_value { (soundness_lent (Some marks) books.now table.old ≡ Some n) × (fitting most (places_in tray.old) ≡ true) }
    ensures { Stepped (Some marks) books.now most event.now
        table.old tray.old table.new tray.new result }
{
    let said = record::read(event);
    match said {
        Ok(e) => event::on_event(marks, books, most, table, n, e, tray),
        Err(Malformed) => Answer {
            outcome: 2,
            count: 0,
        },
    }
}

// A step on a sound table.
fn on_table(
    table: &mut [u8],
    n: usize,
    marks: Marks,
    books: &[u8],
    most: u8,
    event: &[u8],
    tray: &mut [u8],
) -> Answer
    requires sound_table { SoundTable table.old n }
    requires table_value { soundness_lent (Some marks) books.now table.old ≡ Some n }
    ensures { Stepped (Some marks) books.now most event.now
        table.old tray.old table.new tray.new result }
{
    let places = tray::places(tray);
    let fits = checks::fit(most, places);
    if !fits {
        return Answer {
            outcome: 1,
            count: 0,
        };
    }
    on_fitting(table, n, marks, books, most, event, tray)
}

// One event on a table, with the provider list's marks, the books, R and a tray.
pub fn step_listed(
    table: &mut [u8],
    listed: Option<Marks>,
    books: &[u8],
    most: u8,
    event: &[u8],
    tray: &mut [u8],
) -> Answer
    ensures { Stepped listed books.now most event.now
        table.old tray.old table.new tray.new result }
{
    if let Some(marks) = listed {
        if let Some(used) = checks::lent(listed, books, table) {
            return on_table(table, used, marks, books, most, event, tray);
        }
    }
    Answer {
        outcome: 1,
        count: 0,
    }
}

// The same with the provider list as bytes.
pub fn step(
    table: &mut [u8],
    providers: &[u8],
    books: &[u8],
    most: u8,
    event: &[u8],
    tray: &mut [u8],
) -> Answer
    ensures { Stepped (listed (map entry_of providers.now)) books.now most event.now
        table.old tray.old table.new tray.new result }
{
    let listed = providers::marks_of_bytes(providers);
    step_listed(table, listed, books, most, event, tray)
}
