// Who is told what: the runs of messages of an accepted event.
ghost use Rattle.std.specs.Prelude.{◌≡◌, [], ◌∷◌, ◌≤◌, false};
ghost use Rattle.model.specs.Sound.{disconnect};
ghost use Rattle.model.specs.Tray.{message, to_soas, sides_told, download_to};
ghost use Rattle.model.specs.Closing.{closing_told};
ghost use Rattle.verdict.specs.Verdict.{run_of};

use model::{Lrn, Message, Version, purpose, sort};
use verdict::{Run, To};

// A message of w, whose provider its run says.
fn about(w: Version, sort: u8, failed: u64, lrn: Lrn) -> Message
    ensures { result ≡ message w false sort failed 0 lrn }
{
    Message {
        local: false,
        provider: 0,
        sort,
        id: w.id,
        status: w.status,
        failed,
        lrn,
    }
}

// To both sides, old and new; within one provider they are one.
pub fn sides(w: Version, sort: u8, failed: u64, lrn: Lrn) -> Run
    ensures { run_of result ≡ to_soas w sort failed lrn (sides_told w) }
{
    if w.within {
        return side(w, w.new.provider, sort, failed, lrn);
    }
    let say = about(w, sort, failed, lrn);
    Run {
        say,
        to: To::Soas(w.old.provider, w.new.provider),
    }
}

// To one side.
pub fn side(w: Version, provider: u8, sort: u8, failed: u64, lrn: Lrn) -> Run
    ensures { run_of result ≡ to_soas w sort failed lrn (provider ∷ []) }
{
    let say = about(w, sort, failed, lrn);
    Run {
        say,
        to: To::Soa(provider),
    }
}

// The download of w, to Local SMSs.
pub fn download(w: Version, to: To) -> Run
    requires { w.cast.purpose ≤ disconnect }
    ensures { result ≡ record { say = download_to w 0; to = to } }
{
    let say = Message {
        local: true,
        provider: 0,
        sort: sort::DOWNLOAD + w.cast.purpose,
        id: w.id,
        status: w.status,
        failed: 0,
        lrn: w.new.lrn,
    };
    Run { say, to }
}

// The close of w's broadcast: its status, with the failed set, to old and new; for modify and disconnect to new only.
pub fn close(w: Version) -> Run
    ensures { run_of result ≡ closing_told w }
{
    let v = closing::closed(w);
    if w.cast.purpose == purpose::ACTIVATE {
        return sides(v, sort::STATUS, w.cast.failed, Lrn(0));
    }
    side(v, v.new.provider, sort::STATUS, w.cast.failed, Lrn(0))
}
