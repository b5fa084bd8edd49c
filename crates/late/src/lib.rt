// Trying late starts: whether a list holds with each instance as late as its delay says, and the tick at which it first goes wrong.
#![tactic(auto)]

ghost use Rattle.std.specs.Prelude.{◌≤◌, ◌<◌, ◌≡◌, length, IfErr};
ghost use Rattle.rules.specs.Sheet.{max_facts};
ghost use Rattle.rules.specs.RunList.{Plan};
ghost use Rattle.rules.specs.Late.{Late};
ghost use Rattle.laws.specs.Test.{Says};
ghost use Rattle.sheet.specs.WellFormed.{said_by};
ghost use Rattle.late_starts.specs.Delays.{ButLate};
ghost use Rattle.sorting.specs.Counting.{Grouped};
ghost use Rattle.sorting.specs.Rows.{Fits};
ghost use Rattle.plan_points.specs.Flat.{tick_in};
ghost use Rattle.plan_points.specs.Order.{Ordered};
ghost use Rattle.instances.specs.Rows.{EventRows};
ghost use Rattle.judge.specs.Points.{FewRows, Early};
ghost use Rattle.late.specs.Answer.{refusal_number, refusal_detail, number_of, detail_of, Whose};
ghost use Rattle.late.specs.Rows.{SetFault, RowFaultAt, FirstFault, RowsInTime, Found};
ghost use Rattle.late.specs.declared.Refusal.TheVariants as refusal;

use answers::Answer;
use list_reader::RunList;
use plan_points::{Need, Row};
use sheet::{Event, WellFormed};

// Why a delayed list is refused: what the judge says of the list, or of its delays; or that it goes wrong, first at this tick.
#[derive(Clone, Copy)]
pub enum Refusal {
    Judge(judge::Refusal),
    GoesWrong(usize),
}

impl From<judge::Refusal> for Refusal {
    ghost from_gives = { λ x r. r ≡ refusal.Judge x };

    fn from(refusal: judge::Refusal) -> Refusal {
        Refusal::Judge(refusal)
    }
}

impl From<Refusal> for Answer {
    ghost from_gives = { λ x r. (r.number ≡ refusal_number x) × (r.detail ≡ refusal_detail x) };

    // Equals: refusal_number and refusal_detail of the refusal
    fn from(refusal: Refusal) -> Answer {
        match refusal {
            Refusal::Judge(x) => Answer::from(x),
            Refusal::GoesWrong(tick) => Answer {
                number: Answer::NOT_A_PLAN,
                detail: tick,
            },
        }
    }
}

// The tick at which the set x of fact f goes wrong: its own, if a clear of the fact has it too.
fn set_fault(x: u32, f: usize, first: &[u16], sorted: &[u32]) -> usize
    requires { Ordered first.now sorted.now × (f < max_facts) }
    ensures { SetFault first.now sorted.now f (tick_in x) result }
{
    let at = Row::tick(x);
    if plan_points::free(first, sorted, f, at) {
        Need::NEVER
    } else {
        at
    }
}

// The tick at which row k goes wrong: a set, or the need that it begins.
fn row_fault(
    sheet: &WellFormed,
    rows: &[u32],
    count: usize,
    k: usize,
    first: &[u16],
    sorted: &[u32],
) -> usize
    requires { Ordered first.now sorted.now × FewRows (said_by sheet.now) rows.now count × (k < count) × Grouped count rows.now first.now sorted.now }
    ensures { RowFaultAt (said_by sheet.now) first.now sorted.now rows.now count k result }
{
    let x = rows[k];
    match Row::event(x) {
        Event::Begins(f) => judge::need_fault(sheet, rows, count, k, f, first, sorted),
        Event::Ends(_) => Need::NEVER,
        Event::Sets(f) => set_fault(x, f, first, sorted),
        Event::Clears(_) => Need::NEVER,
    }
}

// The first tick at which a row goes wrong. None goes wrong before its own tick.
fn first_fault(
    sheet: &WellFormed,
    rows: &[u32],
    count: usize,
    first: &[u16],
    sorted: &[u32],
) -> usize
    requires { Ordered first.now sorted.now × FewRows (said_by sheet.now) rows.now count × Grouped count rows.now first.now sorted.now }
    ensures { FirstFault (said_by sheet.now) first.now sorted.now rows.now count count result }
{
    let mut least = Need::NEVER;
    for k in 0..count {
        if Row::tick(rows[k]) < least {
            least = least.min(row_fault(sheet, rows, count, k, first, sorted));
        }
    }
    least
}

// No row's tick lies above the latest.
fn in_time(rows: &[u32], count: usize, latest: usize) -> bool
    requires { count ≤ length rows.now }
    ensures { Says (RowsInTime rows.now count latest) result }
{
    rows[..count].iter().all(|row| Row::tick(*row) <= latest)
}

// What is said of the rows of a delayed list.
fn answer_of(sheet: &WellFormed, rows: &[u32], count: usize) -> Result<(), Refusal>
    requires { Fits count rows.now × FewRows (said_by sheet.now) rows.now count }
    ensures found { (p : Plan) → EventRows (said_by sheet.now) p rows.now count → Early (said_by sheet.now) p → ButLate (said_by sheet.now) p → Found (said_by sheet.now) p (number_of result) (detail_of result) }
    ensures wrong { IfErr result (λ x. x ≡ refusal.GoesWrong (refusal_detail x)) }
{
    let mut sorted = [0u32; RunList::MAX_TIMES];
    let first = sorting::sort_any(rows, count, Event::SET_KEYS, &mut sorted);
    let latest = sheet.latest();
    let tick = first_fault(sheet, rows, count, &first, &sorted);
    if tick <= latest {
        return Err(Refusal::GoesWrong(tick));
    }
    if in_time(rows, count, latest) {
        if judge::goals_held(sheet, &first, &sorted) {
            return Ok(());
        }
    }
    Err(Refusal::GoesWrong(latest))
}

// Equals: number and detail of Late (number_of, detail_of; one answer, by late_unique), and of the two refusals the one of Whose
pub fn late(b: &[u8], l: &[u8], delays: &[u16]) -> Result<(), Refusal>
    ensures answer { Late b.now l.now delays.now (number_of result) (detail_of result) }
    ensures whose { IfErr result (Whose b.now l.now delays.now) }
{
    let mut rows = [0u32; RunList::MAX_TIMES];
    let delayed = delays::apply(b, l, delays, &mut rows)?;
    answer_of(&delayed.sheet, &rows, delayed.rows)
}
