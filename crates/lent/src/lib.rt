// The lent reader: a sheet's bytes, lent by the caller, and the places of their four bodies.
#![tactic(auto)]

ghost use Rattle.std.specs.Prelude.{◌≡◌, ◌<◌};
ghost use Rattle.rules.specs.Sheet.{sheet_of};
ghost use Rattle.sheet.specs.View.{PlacesAre, SheetIs};
ghost use Rattle.lent.specs.Row.{row_of};
ghost use Rattle.numbers.specs.Size.{word};

use sheet::{Event, Places, Sheet};

#[derive(Clone, Copy)]
pub struct Parts<'a> {
    pub bytes: &'a [u8],
    pub at: Places,
}

// What `event` says, of plain parameters.
fn event_at(b: &[u8], at: Places, e: usize) -> Option<(usize, Event)>
    requires { PlacesAre b.now at × (e < word) }
    ensures { result ≡ row_of (sheet_of b.now) e }
{
    let v = Sheet::of(b, at);
    if v.events <= e {
        return None;
    }
    let row = sheet::row_at(b, v.events_at + 3 * e);
    let code = sheet::two_at(b, v.jobs_at + v.job_row * row.job);
    Some((code, Event::decode(row.kind, row.fact)))
}

impl<'a> Parts<'a> {
    // By the contents, which come first.
    // Equals: bytes, and the places of their bodies (PlacesAre)
    pub fn new(bytes: &'a [u8]) -> Parts<'a>
        ensures { (result.bytes ≡ bytes.entry) × PlacesAre bytes.now result.at }
    {
        let at = Places::new(bytes);
        Parts { bytes, at }
    }

    // What the bodies say.
    // Equals: counts, horizon and gap of sheet_of, and the places of its rows (SheetIs)
    pub fn sheet(self) -> Sheet
        requires { PlacesAre self.bytes.now self.at }
        ensures { SheetIs self.entry.bytes.now result }
    {
        Sheet::of(self.bytes, self.at)
    }

    // Event e with its job's code, if there is one.
    // Equals: row_of (sheet_of bytes) e
    pub fn event(self, e: usize) -> Option<(usize, Event)>
        requires { PlacesAre self.bytes.now self.at × (e < word) }
        ensures { result ≡ row_of (sheet_of self.entry.bytes.now) e }
    {
        event_at(self.bytes, self.at, e)
    }
}

// What any bytes say. Like `event` it has plain parameters.
// Equals: counts, horizon and gap of sheet_of b, and the places of its rows (SheetIs)
pub fn sheet(b: &[u8]) -> Sheet
    ensures { SheetIs b.now result }
{
    Parts::new(b).sheet()
}

// Event e of any bytes with its job's code, if there is one.
// Equals: row_of (sheet_of b) e
pub fn event(b: &[u8], e: usize) -> Option<(usize, Event)>
    requires { e < word }
    ensures { result ≡ row_of (sheet_of b.now) e }
{
    Parts::new(b).event(e)
}
