// The planner: of any bytes, the least list of the sheet that they are, written into a lent buffer; or the first reason of the
// table of answers that says why not. The buffer is unchanged where no list is written.
#![tactic(auto)]

ghost use Rattle.std.specs.Prelude.{map, ◌≡◌};
ghost use Rattle.rules.specs.Answer.{Planned};
ghost use Rattle.laws.specs.Planned.{PlannedFor};
ghost use Rattle.sheet.specs.WellFormed.{said_by};
ghost use Rattle.list_rules.specs.View.{sheet_of, columns_of, marks_of};
ghost use Rattle.class.specs.Answer.{Kept};
ghost use Rattle.class.specs.declared.Rule.TheVariants.{Setters};
ghost use Rattle.least_ticks.specs.View.{Indexed, OrderedSheet, Able};
ghost use Rattle.planner.specs.declared.Refusal.{Refusal};
ghost use Rattle.planner.specs.View.{refusal_number, refusal_detail, number_of, detail_of, AsksWritten, WantedMarks};

use answers::Answer;
use class::{Outside, Rule};
use index::Columns;
use kernel_least::Impossible;
use list_rules::Marked;
use own_times::{OwnRows, OwnRules};
use reader::Fault;
use sheet::{Event, Sheet, WellFormed};
use wanted::Wanted;

// Why no list is written.
#[derive(Clone, Copy)]
pub enum Refusal {
    Sheet(Fault),
    Outside(Outside),
    NoPlan,
    // The length that the list has.
    Short(usize),
}

impl From<Fault> for Refusal {
    ghost from_gives = { λ x r. r ≡ Refusal.Sheet x };

    fn from(fault: Fault) -> Refusal {
        Refusal::Sheet(fault)
    }
}

impl From<Outside> for Refusal {
    ghost from_gives = { λ x r. r ≡ Refusal.Outside x };

    fn from(outside: Outside) -> Refusal {
        Refusal::Outside(outside)
    }
}

// No ticks meet the list rules of a sheet, or a reason besides them bars a plan.
impl From<Impossible> for Refusal {
    ghost from_gives = { λ _ r. r ≡ Refusal.NoPlan };

    fn from(_impossible: Impossible) -> Refusal {
        Refusal::NoPlan
    }
}

impl From<Refusal> for Answer {
    ghost from_gives = { λ x r. (r.number ≡ refusal_number x) × (r.detail ≡ refusal_detail x) };

    // Equals: refusal_number and refusal_detail of the refusal
    fn from(refusal: Refusal) -> Answer {
        match refusal {
            Refusal::Sheet(fault) => Answer {
                number: u8::from(fault),
                detail: Answer::NO_DETAIL,
            },
            Refusal::Outside(outside) => Answer {
                number: u8::from(outside.rule),
                detail: outside.fact,
            },
            Refusal::NoPlan => Answer {
                number: Answer::NO_PLAN,
                detail: Answer::NO_DETAIL,
            },
            Refusal::Short(size) => Answer {
                number: Answer::SHORT,
                detail: size,
            },
        }
    }
}

// The list of the wanted jobs at the ticks x, if it fits; its length.
fn written<'a>(
    sheet: &WellFormed,
    columns: Columns<'a>,
    jobs: &[bool; Sheet::MAX_JOBS],
    x: &[u16; Sheet::MAX_EVENTS],
    out: &mut [u8],
) -> Result<usize, Refusal>
    requires { AsksWritten (said_by sheet.now) (map (λ x. x.now) columns) jobs.now x.now }
    ensures { PlannedFor (said_by sheet.now) out.old (number_of result) (detail_of result) out.new }
{
    let size = list_writer::write(sheet, columns, jobs, x, out);
    if size <= out.len() {
        Ok(size)
    } else {
        Err(Refusal::Short(size))
    }
}

// A sheet inside the class.
fn plan_inside<'b, 'c, 'm, 'o>(
    marked: &Marked<'b, 'c, 'm>,
    own: OwnRows<'o>,
    jobs: &[bool; Sheet::MAX_JOBS],
    order: &[u16],
    out: &mut [u8],
) -> Result<usize, Refusal>
    requires able { Able marked.now.sheet (columns_of marked.now) (map (λ x. x.now) own) (marks_of marked.now) }
    requires wanted_marks { WantedMarks (sheet_of marked.now) jobs.now }
    ensures { PlannedFor (sheet_of marked.now) out.old (number_of result) (detail_of result) out.new }
{
    let mut x = least_ticks::copied(own);
    least_ticks::solve(marked, own, order, &mut x)?;
    written(&marked.sheet, marked.columns, jobs, &x, out)
}

// A sheet that keeps the first class rule, with its orders.
fn plan_ordered<'b, 'c, 'm, 'o>(
    marked: &Marked<'b, 'c, 'm>,
    own: OwnRows<'o>,
    jobs: &[bool; Sheet::MAX_JOBS],
    order: &[u16],
    out: &mut [u8],
) -> Result<usize, Refusal>
    requires ordered_sheet { OrderedSheet marked.now.sheet (columns_of marked.now) (map (λ x. x.now) own) (marks_of marked.now) × Kept Setters (sheet_of marked.now) }
    requires wanted_marks { WantedMarks (sheet_of marked.now) jobs.now }
    ensures { PlannedFor (sheet_of marked.now) out.old (number_of result) (detail_of result) out.new }
{
    class::class_of(&marked.sheet, marked.columns, marked.marks)?;
    plan_inside(marked, own, jobs, order, out)
}

// A well-formed sheet with the index of its present jobs' events: what is wanted, the first class rule, the orders.
fn plan_indexed(
    sheet: &WellFormed,
    columns: Columns<'_>,
    own: OwnRows<'_>,
    out: &mut [u8],
) -> Result<usize, Refusal>
    requires { Indexed sheet.now (map (λ x. x.now) columns) (map (λ x. x.now) own) }
    ensures { PlannedFor (said_by sheet.now) out.old (number_of result) (detail_of result) out.new }
{
    let (wanted, order) = Wanted::new(sheet, columns);
    if let Some(fact) = class::setters(sheet, columns, &wanted.facts) {
        let rule = Rule::Setters;
        return Err(Refusal::Outside(Outside { rule, fact }));
    }
    let orders = order_table::shown(sheet, columns, own, &wanted.jobs);
    let marked = Marked::new(
        sheet,
        columns,
        [&wanted.facts, &wanted.jobs, &orders.last, &orders.first],
    );
    plan_ordered(&marked, own, &wanted.jobs, order.listed(), out)
}

// A well-formed sheet: own times, which tell the jobs that are present, and the index of their events.
fn plan_formed(sheet: &WellFormed, out: &mut [u8]) -> Result<usize, Refusal>
    ensures { PlannedFor (said_by sheet.now) out.old (number_of result) (detail_of result) out.new }
{
    let span = index::spans(sheet);
    let mut keys = [0u16; Sheet::MAX_EVENTS];
    let mut jobs = [0u16; Sheet::MAX_EVENTS];
    index::decode(sheet, &mut keys, &mut jobs);
    let mut first = [0u16; Sheet::MAX_EVENTS + 1];
    let mut to = [0u16; OwnRules::MAX];
    let mut weight = [0u16; OwnRules::MAX];
    let mut x = [0u16; Sheet::MAX_EVENTS];
    own_times::rows(sheet, &keys, &mut first, &mut to, &mut weight);
    let present = own_times::least_times(sheet, &span, [&first, &to, &weight], &mut x);
    let mut counted = keys;
    index::keep_counted(sheet, &span, &present, &mut counted);
    let starts = index::starts(sheet, &counted);
    let event = index::places(sheet, &counted, starts);
    let begins = index::of_type(&starts, Event::BEGINS);
    let sets = index::of_type(&starts, Event::SETS);
    let clears = index::of_type(&starts, Event::CLEARS);
    plan_indexed(
        sheet,
        [begins, sets, clears, &event, &span, &jobs, &keys],
        [&first, &to, &weight, &x],
        out,
    )
}

// How many bytes the list has that is written, or why none is.
// Equals: number, detail and buffer of Planned (one answer, by planned_unique)
pub fn plan(b: &[u8], out: &mut [u8]) -> Result<usize, Refusal>
    ensures { Planned b.now out.old (number_of result) (detail_of result) out.new }
{
    let sheet = reader::read(b)?;
    plan_formed(&sheet, out)
}
