// The provider list of document 01's example: held as three records, and lent to a step as a list. [Z1, F7]
#![tactic(auto)]

ghost use Rattle.std.specs.Prelude.{◌≡◌};
ghost use Rattle.providers.specs.Providers.{listed};
ghost use Rattle.engine.specs.Step.{Stepped};
ghost use Rattle.sample.specs.Sample.{three};

use model::Provider;
use outcomes::Answer;

// Providers 1 to 3, each present and with a Local SMS.
pub fn built_in() -> [Provider; 3]
    ensures { result ≡ three }
{
    let p = Provider {
        present: true,
        local: true,
    };
    [p, p, p]
}

// One event on a table, with the three records lent as the provider list.
pub fn step_of_three(
    table: &mut [u8],
    list: [Provider; 3],
    books: &[u8],
    most: u8,
    event: &[u8],
    tray: &mut [u8],
) -> Answer
    ensures { Stepped (listed list) books.now most event.now
        table.old tray.old table.new tray.new result }
{
    lent::step_of_list(table, &list, books, most, event, tray)
}
