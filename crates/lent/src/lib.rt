// One step with the provider list lent as records. [B1, F7]
#![tactic(auto)]

ghost use Rattle.providers.specs.Providers.{listed};
ghost use Rattle.engine.specs.Step.{Stepped};

use model::Provider;
use outcomes::Answer;

// One event on a table, with the provider list as records, the books, R and a tray.
pub fn step_of_list(
    table: &mut [u8],
    list: &[Provider],
    books: &[u8],
    most: u8,
    event: &[u8],
    tray: &mut [u8],
) -> Answer
    ensures { Stepped (listed list.now) books.now most event.now
        table.old tray.old table.new tray.new result }
{
    let listed = providers::marks_of_list(list);
    engine::step::step_listed(table, listed, books, most, event, tray)
}
