// The run state: a fresh one, and one moved on by one tick of a delayed list.
#![tactic(auto)]

ghost use Rattle.std.specs.Prelude.{ℕ, ◌≡◌, ◌^◌, ◌≤◌, ◌<◌, length};
ghost use Rattle.rules.specs.Sheet.{max_facts};
ghost use Rattle.rules.specs.Late.{Bits, IsInitial, Fresh, Moved};
ghost use Rattle.sheet.specs.View.{fact_of};
ghost use Rattle.sheet.specs.WellFormed.{said_by};
ghost use Rattle.judge.specs.Verdict.{number_of};
ghost use Rattle.run_state.specs.State.{fresh_number, held_or, state_of, state_or, sets_with, clears_with, Changes, Steps};

use judge::Refusal;
use list_reader::RunList;
use plan_points::Row;
use reader::Fault;
use sheet::{Event, WellFormed};

// The tick that the next move runs, and the facts now held: bit f is fact f.
#[repr(C)]
#[derive(Clone, Copy)]
pub struct Run {
    pub next: u64,
    pub held: u64,
}

// The facts set and those cleared at one tick.
#[derive(Clone, Copy)]
pub struct Change {
    pub sets: u64,
    pub clears: u64,
}

// Bit f.
fn bit(f: usize) -> u64
    requires { f < max_facts }
    ensures { result ≡ 2 ^ f }
{
    1u64 << f
}

// The facts that are initial.
fn initial_facts(sheet: &WellFormed) -> u64
    ensures { Bits result (IsInitial (said_by sheet.now)) }
{
    let facts = sheet.view.facts;
    let mut held = 0u64;
    for f in 0..facts {
        if sheet.initial(f) {
            held = held | bit(f);
        }
    }
    held
}

// A fresh state's facts.
// Equals: number and facts of Fresh, with a refusal the old ones (fresh_number, held_or; one answer, by fresh_unique)
pub fn fresh(b: &[u8]) -> Result<u64, Fault>
    ensures { (old : ℕ) → Fresh b.now old (fresh_number result) (held_or old result) }
{
    let sheet = reader::read(b)?;
    Ok(initial_facts(&sheet))
}

// A change, and what an event sets or clears besides.
fn with_event(change: Change, event: Event) -> Change
    requires { fact_of event < max_facts }
    ensures { (result.sets ≡ sets_with event change.sets) × (result.clears ≡ clears_with event change.clears) }
{
    match event {
        Event::Begins(_) => change,
        Event::Ends(_) => change,
        Event::Sets(f) => Change {
            sets: change.sets | bit(f),
            clears: change.clears,
        },
        Event::Clears(f) => Change {
            sets: change.sets,
            clears: change.clears | bit(f),
        },
    }
}

// What the rows set and clear at a tick.
fn change_at(rows: &[u32], count: usize, tick: usize) -> Change
    requires { count ≤ length rows.now }
    ensures { Changes rows.now count tick result }
{
    let mut change = Change { sets: 0, clears: 0 };
    for k in 0..count {
        let x = rows[k];
        if Row::tick(x) == tick {
            change = with_event(change, Row::event(x));
        }
    }
    change
}

// One move of any state: sets, then clears.
fn step(sheet: &WellFormed, rows: &[u32], count: usize, run: Run) -> Run
    requires { count ≤ length rows.now }
    ensures { Steps rows.now count sheet.now.view.horizon (state_of run) (state_of result) }
{
    let next = run.next;
    if (sheet.latest() as u64) < next {
        return run;
    }
    let change = change_at(rows, count, next as usize);
    let old = run.held;
    let sets = change.sets;
    let clears = change.clears;
    let held = old | sets;
    let after = next + 1;
    Run {
        next: after,
        held: held ^ (held & clears),
    }
}

// One move over the delayed list.
// Equals: number and state of Moved, with a refusal the old one (number_of, state_or; one answer, by moved_unique)
pub fn moved(b: &[u8], l: &[u8], delays: &[u16], run: Run) -> Result<Run, Refusal>
    ensures { Moved b.now l.now delays.now (state_of run) (number_of result) (state_or (state_of run) result) }
{
    let mut rows = [0u32; RunList::MAX_TIMES];
    let delayed = delays::apply(b, l, delays, &mut rows)?;
    Ok(step(&delayed.sheet, &rows, delayed.rows, run))
}
