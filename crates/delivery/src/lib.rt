// The mail of a verdict put in the tray, run after run. Nothing else writes there.
#![tactic(auto)]

ghost use Rattle.std.specs.Prelude.{◌≡◌, [], ◌∷◌, ◌+◌, ◌≤◌, length};
ghost use Rattle.model.specs.Basics.{All};
ghost use Rattle.verdict.specs.Verdict.{to_soa, run_of, messages_of};
ghost use Rattle.tray.specs.Tray.{Small, places_in, Told};

use model::Message;
use verdict::{Mail, Run, To};

// The same message to a provider's SOA.
fn to_soa(m: Message, provider: u8) -> Message
    ensures { result ≡ to_soa m provider }
{
    Message {
        local: false,
        provider,
        ..m
    }
}

// To the SOAs of two providers, in this order; how many they are.
fn soas(tray: &mut [u8], at: usize, say: Message, p: u8, q: u8) -> usize
    requires at_bound { at + 2 ≤ places_in tray.old }
    requires all { All Small (to_soa say p ∷ to_soa say q ∷ []) }
    ensures { Told (to_soa say p ∷ to_soa say q ∷ []) at tray.old tray.new result }
{
    tray::put_message(tray, at, to_soa(say, p));
    tray::put_message(tray, at + 1, to_soa(say, q));
    2
}

// A run, from a place on.
fn run(tray: &mut [u8], at: usize, r: Run) -> usize
    requires r_bound { at + length (run_of r) ≤ places_in tray.old }
    requires all { All Small (run_of r) }
    ensures { Told (run_of r) at tray.old tray.new result }
{
    match r.to {
        To::Soa(p) => {
            tray::put_message(tray, at, to_soa(r.say, p));
            1
        }
        To::Soas(p, q) => soas(tray, at, r.say, p, q),
        To::Local(p) => {
            tray::put_message(tray, at, tray::to_local(r.say, p));
            1
        }
        To::Locals(s) => tray::put_downloads(tray, at, r.say, s),
    }
}

// All of it from the first place on; how many messages there are.
pub fn deliver(tray: &mut [u8], mail: Mail) -> usize
    requires mail_len_bound { length (messages_of mail) ≤ places_in tray.old }
    requires all { All Small (messages_of mail) }
    ensures { Told (messages_of mail) 0 tray.old tray.new result }
{
    match mail {
        Mail::One(r) => run(tray, 0, r),
        Mail::Two(r, s) => {
            let n = run(tray, 0, r);
            n + run(tray, n, s)
        }
        Mail::Silence => 0,
    }
}
