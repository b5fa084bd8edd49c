// Rewriting a sheet to the other edition: the sheet of that edition that says the same, written into a lent buffer. The buffer is
// unchanged where none is written.
#![tactic(auto)]

ghost use Rattle.std.specs.Prelude.{◌≡◌};
ghost use Rattle.rules.specs.Rewrite.{goes_back, ToEdition2, ToEdition1};
ghost use Rattle.sheet.specs.WellFormed.{said_by};
ghost use Rattle.reader.specs.Reads.{ReadAs};
ghost use Rattle.sheet_bytes.specs.SheetBytes.{sheet_bytes};
ghost use Rattle.sheet_bytes.specs.OtherEdition.{plain_gap};
ghost use Rattle.sheet_writer.specs.View.{IsEdition};
ghost use Rattle.rewrite.specs.declared.Refusal.{Refusal};
ghost use Rattle.rewrite.specs.View.{no_releases, refusal_number, refusal_detail, number_of, detail_of, Wrote};

use answers::Answer;
use reader::Fault;
use sheet::{Sheet, WellFormed};

// The gap byte that says what edition 1 says: a sheet rewritten to edition 2 has it, and no other goes back.
const PLAIN_GAP: usize = 1;

// Why no sheet is written, first number first.
#[derive(Clone, Copy)]
pub enum Refusal {
    Sheet(Fault),
    NoWayBack,
    // The length that the sheet has.
    Short(usize),
}

impl From<Fault> for Refusal {
    ghost from_gives = { λ x r. r ≡ Refusal.Sheet x };

    fn from(fault: Fault) -> Refusal {
        Refusal::Sheet(fault)
    }
}

impl From<Refusal> for Answer {
    ghost from_gives = { λ x r. (r.number ≡ refusal_number x) × (r.detail ≡ refusal_detail x) };

    // Equals: refusal_number and refusal_detail of the refusal
    fn from(refusal: Refusal) -> Answer {
        match refusal {
            Refusal::Sheet(fault) => Answer {
                number: u8::from(fault),
                detail: Answer::NO_DETAIL,
            },
            Refusal::NoWayBack => Answer {
                number: Answer::NO_WAY_BACK,
                detail: Answer::NO_DETAIL,
            },
            Refusal::Short(size) => Answer {
                number: Answer::SHORT,
                detail: size,
            },
        }
    }
}

// No job has a release.
fn no_releases(sheet: &WellFormed) -> bool
    ensures { result ≡ no_releases (said_by sheet.now) }
{
    // Not by `all` of the range: it costs four instructions more a row.
    for j in 0..sheet.view.jobs {
        if sheet.release(j) != Sheet::NONE {
            return false;
        }
    }
    true
}

// Edition 1 can say what the sheet says.
fn goes_back(sheet: &WellFormed) -> bool
    requires { ReadAs sheet.now.bytes.now sheet.now }
    ensures { result ≡ goes_back sheet.now.bytes.now }
{
    (Sheet::gap_byte(sheet.bytes) == PLAIN_GAP)
        & (sheet.revision() == Sheet::NONE)
        & no_releases(sheet)
}

// The sheet in this edition, if it fits; its length.
fn written(sheet: &WellFormed, edition: usize, out: &mut [u8]) -> Result<usize, Refusal>
    requires { IsEdition edition }
    ensures { Wrote (sheet_bytes edition plain_gap (said_by sheet.now)) out.old (number_of result) (detail_of result) out.new }
{
    let size = sheet_writer::size(sheet, edition);
    if out.len() < size {
        return Err(Refusal::Short(size));
    }
    sheet_writer::write(sheet, edition, PLAIN_GAP, out);
    Ok(size)
}

// How many bytes are written, or why none are.
// Equals: number, detail and buffer of ToEdition2 (one answer, by to_edition2_unique)
pub fn to_edition2(sheet: &[u8], buffer: &mut [u8]) -> Result<usize, Refusal>
    ensures { ToEdition2 sheet.now buffer.old (number_of result) (detail_of result) buffer.new }
{
    let v = reader::read_in(sheet, Sheet::EDITION_1)?;
    written(&v, Sheet::EDITION_2, buffer)
}

// And back, which only some sheets go: what the two directions share is `written`.
// Equals: number, detail and buffer of ToEdition1 (one answer, by to_edition1_unique)
pub fn to_edition1(sheet: &[u8], buffer: &mut [u8]) -> Result<usize, Refusal>
    ensures { ToEdition1 sheet.now buffer.old (number_of result) (detail_of result) buffer.new }
{
    let v = reader::read_in(sheet, Sheet::EDITION_2)?;
    if goes_back(&v) {
        return written(&v, Sheet::EDITION_1, buffer);
    }
    Err(Refusal::NoWayBack)
}
