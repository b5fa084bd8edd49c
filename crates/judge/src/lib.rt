// The judge: of any bytes, whether they are a list that is a plan for a sheet, or the first rule that they break.
#![tactic(auto)]

ghost use Rattle.std.specs.Prelude.{◌≤◌, ◌<◌, ◌≡◌, true, map, length};
ghost use Rattle.rules.specs.Sheet.{begins, goal};
ghost use Rattle.rules.specs.RunList.{Plan, plan_of, max_times};
ghost use Rattle.rules.specs.Answer.{Judged};
ghost use Rattle.laws.specs.Test.{Says};
ghost use Rattle.reader.specs.Reads.{ReadAs};
ghost use Rattle.sheet.specs.WellFormed.{said_by};
ghost use Rattle.sorting.specs.Counting.{Grouped};
ghost use Rattle.sorting.specs.Rows.{Fits};
ghost use Rattle.plan_points.specs.Flat.{cell, type_in, fact_in};
ghost use Rattle.plan_points.specs.Order.{Ordered};
ghost use Rattle.instances.specs.Rows.{Lists, RowRoom, EventRows};
ghost use Rattle.judge.specs.Points.{AfterNext, NeedFaultAt, RowsHold, GoalHeld, GoalsHeld, FewRows, Points, Early};
ghost use Rattle.judge.specs.Verdict.{FormedVerdict, Verdicts, refusal_number, number_of};
ghost use Rattle.judge.specs.declared.Refusal.TheVariants as refusal;

use answers::Answer;
use instances::Columns;
use list_reader::RunList;
use plan_points::{Need, Row};
use reader::Fault;
use sheet::{Event, Sheet, WellFormed};

// Why a list is refused: a fault of the sheet, the form of the list, or that it is no plan.
#[derive(Clone, Copy)]
pub enum Refusal {
    Sheet(Fault),
    ListForm,
    NotAPlan,
}

impl From<Fault> for Refusal {
    ghost from_gives = { λ x r. r ≡ refusal.Sheet x };

    fn from(fault: Fault) -> Refusal {
        Refusal::Sheet(fault)
    }
}

impl From<Refusal> for u8 {
    ghost from_gives = { λ x r. r ≡ refusal_number x };

    // Equals: refusal_number refusal
    fn from(refusal: Refusal) -> u8 {
        match refusal {
            Refusal::Sheet(fault) => u8::from(fault),
            Refusal::ListForm => Answer::LIST_FORM,
            Refusal::NotAPlan => Answer::NOT_A_PLAN,
        }
    }
}

impl From<Refusal> for Answer {
    ghost from_gives = { λ x r. (r.number ≡ refusal_number x) × (r.detail ≡ 0) };

    // Equals: refusal_number refusal, and no detail
    fn from(refusal: Refusal) -> Answer {
        Answer {
            number: u8::from(refusal),
            detail: Answer::NO_DETAIL,
        }
    }
}

// The row after the next one, 0 where there is none: where a need begins, only there can stand a set of its fact by its instance.
// No Option: it is handed to plan_points::fault, which is public and takes row 0 for none.
fn after_next(rows: &[u32], count: usize, k: usize) -> u32
    requires { (count ≤ length rows.now) × (k < count) × (count ≤ max_times) }
    ensures { AfterNext rows.now count k result }
{
    if k + 2 < count {
        return rows[k + 2];
    }
    0
}

// The tick at which the need goes wrong that row k begins and the next row ends, of fact f: point 3.
// Equals: the tick that FaultOf says of that need (NeedFaultAt)
pub fn need_fault(
    sheet: &WellFormed,
    rows: &[u32],
    count: usize,
    k: usize,
    f: usize,
    first: &[u16],
    sorted: &[u32],
) -> usize
    requires { Ordered first.now sorted.now × FewRows (said_by sheet.now) rows.now count × (k < count) × (f ≡ fact_in (cell rows.now k)) × (type_in (cell rows.now k) ≡ begins) × Grouped count rows.now first.now sorted.now }
    ensures { NeedFaultAt (said_by sheet.now) first.now sorted.now rows.now count k result }
{
    let x = rows[k];
    let need = Need {
        entry: Row::entry(x),
        fact: f,
        from: Row::tick(x),
        to: Row::tick(rows[k + 1]),
        gap: sheet.gap(),
    };
    plan_points::fault(
        first,
        sorted,
        need,
        sheet.initial(f),
        after_next(rows, count, k),
    )
}

// Point 3 for the rows that begin a need, and point 2 for those that set a fact.
fn rows_hold(sheet: &WellFormed, rows: &[u32], count: usize, first: &[u16], sorted: &[u32]) -> bool
    requires { Ordered first.now sorted.now × FewRows (said_by sheet.now) rows.now count × Grouped count rows.now first.now sorted.now }
    ensures { Says (RowsHold (said_by sheet.now) first.now sorted.now rows.now count) result }
{
    for k in 0..count {
        let x = rows[k];
        let holds = match Row::event(x) {
            Event::Begins(f) => need_fault(sheet, rows, count, k, f, first, sorted) == Need::NEVER,
            Event::Ends(_) => true,
            Event::Sets(f) => plan_points::free(first, sorted, f, Row::tick(x)),
            Event::Clears(_) => true,
        };
        if !holds {
            return false;
        }
    }
    true
}

// Point 4 for a goal.
fn goal_held(sheet: &WellFormed, f: usize, first: &[u16], sorted: &[u32]) -> bool
    requires { Ordered first.now sorted.now × (f < (said_by sheet.now).facts) × (goal (said_by sheet.now) f ≡ true) }
    ensures { Says (GoalHeld (said_by sheet.now) first.now sorted.now f) result }
{
    let gap = sheet.gap();
    plan_points::fault(first, sorted, Need::goal(f, gap), sheet.initial(f), 0) == Need::NEVER
}

// Point 4.
// Equals: whether GoalsHeld holds
pub fn goals_held(sheet: &WellFormed, first: &[u16], sorted: &[u32]) -> bool
    requires { Ordered first.now sorted.now }
    ensures { Says (GoalsHeld (said_by sheet.now) first.now sorted.now) result }
{
    let facts = sheet.view.facts;
    for f in 0..facts {
        if sheet.goal(f) {
            if !goal_held(sheet, f, first, sorted) {
                return false;
            }
        }
    }
    true
}

// Points 2 to 4.
fn changes(sheet: &WellFormed, rows: &[u32], count: usize) -> bool
    requires { Fits count rows.now × FewRows (said_by sheet.now) rows.now count }
    ensures { (p : Plan) → EventRows (said_by sheet.now) p rows.now count → Early (said_by sheet.now) p → Says (Points (said_by sheet.now) p) result }
{
    let mut sorted = [0u32; RunList::MAX_TIMES];
    let first = sorting::sort(rows, count, Event::SET_KEYS, &mut sorted);
    if !rows_hold(sheet, rows, count, &first, &sorted) {
        return false;
    }
    goals_held(sheet, &first, &sorted)
}

// The events of a well-formed list's instances, in rows; how many there are.
fn rows_of<'a>(
    sheet: &WellFormed,
    columns: Columns<'a>,
    count: usize,
    l: &[u8],
    rows: &mut [u32],
) -> usize
    requires { Lists sheet.now (map (λ x. x.now) columns) count l.now × RowRoom rows.old }
    ensures { EventRows (said_by sheet.now) (plan_of (said_by sheet.now) l.now) rows.new result }
{
    let mut keys = [0u16; Sheet::MAX_EVENTS];
    let mut jobs = [0u16; Sheet::MAX_EVENTS];
    index::decode(sheet, &mut keys, &mut jobs);
    instances::fill(sheet, &keys, columns, count, l, rows)
}

// A well-formed list: point 1, then points 2 to 4.
fn accept_formed<'a>(
    sheet: &WellFormed,
    columns: Columns<'a>,
    count: usize,
    l: &[u8],
    rows: &mut [u32],
) -> Result<usize, Refusal>
    requires { Lists sheet.now (map (λ x. x.now) columns) count l.now × RowRoom rows.old }
    ensures { FormedVerdict (said_by sheet.now) l.now rows.new result }
{
    if !instances::bounds_met(sheet, columns, count, l) {
        return Err(Refusal::NotAPlan);
    }
    let n = rows_of(sheet, columns, count, l, rows);
    if !instances::rows_timely(sheet, columns, rows, n) {
        return Err(Refusal::NotAPlan);
    }
    if changes(sheet, rows, n) {
        Ok(n)
    } else {
        Err(Refusal::NotAPlan)
    }
}

// The refusal of a list, for a well-formed sheet, or that it is a plan, with the events of its instances in rows, and how many rows
// these are.
// Equals: Err with the number of Judged, or Ok exactly if that is 0 (Verdicts)
// Free: with Ok the order of the rows, repeats and so their count: they are the events of all instances, and only such (EventRows).
// Free: the places behind the last row, and with Err all places: nothing is said of them.
pub fn accept(sheet: &WellFormed, l: &[u8], rows: &mut [u32]) -> Result<usize, Refusal>
    requires { ReadAs sheet.now.bytes.now sheet.now × RowRoom rows.old }
    ensures { Verdicts sheet.now.bytes.now l.now rows.new result }
{
    let spans = index::spans(sheet);
    let mut job = [0u16; RunList::MAX_INSTANCES];
    let mut place = [0u16; RunList::MAX_INSTANCES];
    let Some(list) = RunList::read(sheet, &spans, l, &mut job, &mut place) else {
        return Err(Refusal::ListForm);
    };
    accept_formed(sheet, [&spans, &job, &place], list.instances, l, rows)
}

// Equals: Err with the number of Judged, or Ok exactly if that is 0 (number_of; one answer, by judged_unique)
pub fn judge(b: &[u8], l: &[u8]) -> Result<(), Refusal>
    ensures { Judged b.now l.now (number_of result) 0 }
{
    let sheet = reader::read(b)?;
    let mut rows = [0u32; RunList::MAX_TIMES];
    accept(&sheet, l, &mut rows)?;
    Ok(())
}
