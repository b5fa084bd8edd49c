// The library's border to C: include/corrumai.h.
#![tactic(auto)]

ghost use Rattle.rules.specs.Answer.{Judged, Planned};
ghost use Rattle.rules.specs.Rewrite.{ToEdition2, ToEdition1};
ghost use Rattle.rules.specs.Late.{Late, Fresh, Moved};
ghost use Rattle.rules.specs.Cost.{Costed};
ghost use Rattle.rules.specs.Newer.{NewerInC};
ghost use Rattle.run_state.specs.State.{state_of};

use answers::Answer;
use run_state::Run;

// The number is returned, the detail stored.
// Equals: number and detail of Judged (one answer, by judged_unique)
#[unsafe(no_mangle)]
pub extern "C" fn corrumai_judge(sheet: &[u8], list: &[u8], detail: &mut usize) -> u8
    ensures { Judged sheet.now list.now result detail.new }
{
    let answer = match judge::judge(sheet, list) {
        Ok(()) => Answer::done(Answer::NO_DETAIL),
        Err(refusal) => Answer::from(refusal),
    };
    *detail = answer.detail;
    answer.number
}

// The number is returned, the detail stored, and the list written into the buffer if it fits.
// Equals: number, detail and buffer of Planned (one answer, by planned_unique)
#[unsafe(no_mangle)]
pub extern "C" fn corrumai_plan(sheet: &[u8], buffer: &mut [u8], detail: &mut usize) -> u8
    ensures { Planned sheet.now buffer.old result detail.new buffer.new }
{
    let planned = match planner::plan(sheet, buffer) {
        Ok(length) => Answer::done(length),
        Err(refusal) => Answer::from(refusal),
    };
    *detail = planned.detail;
    planned.number
}

// The number is returned, the detail stored, and the sheet of edition 2 written into the buffer if it fits.
// Equals: number, detail and buffer of ToEdition2 (one answer, by to_edition2_unique)
#[unsafe(no_mangle)]
pub extern "C" fn corrumai_to_edition2(sheet: &[u8], buffer: &mut [u8], detail: &mut usize) -> u8
    ensures { ToEdition2 sheet.now buffer.old result detail.new buffer.new }
{
    let rewritten = match rewrite::to_edition2(sheet, buffer) {
        Ok(length) => Answer::done(length),
        Err(refusal) => Answer::from(refusal),
    };
    *detail = rewritten.detail;
    rewritten.number
}

// The number is returned, the detail stored, and the sheet of edition 1 written into the buffer if it fits.
// Equals: number, detail and buffer of ToEdition1 (one answer, by to_edition1_unique)
#[unsafe(no_mangle)]
pub extern "C" fn corrumai_to_edition1(sheet: &[u8], buffer: &mut [u8], detail: &mut usize) -> u8
    ensures { ToEdition1 sheet.now buffer.old result detail.new buffer.new }
{
    let rewritten = match rewrite::to_edition1(sheet, buffer) {
        Ok(length) => Answer::done(length),
        Err(refusal) => Answer::from(refusal),
    };
    *detail = rewritten.detail;
    rewritten.number
}

// The number is returned, the detail stored.
// Equals: number and detail of Late (one answer, by late_unique)
#[unsafe(no_mangle)]
pub extern "C" fn corrumai_late(sheet: &[u8], list: &[u8], delays: &[u16], detail: &mut usize) -> u8
    ensures { Late sheet.now list.now delays.now result detail.new }
{
    let tried = match late::late(sheet, list, delays) {
        Ok(()) => Answer::done(Answer::NO_DETAIL),
        Err(refusal) => Answer::from(refusal),
    };
    *detail = tried.detail;
    tried.number
}

// The number is returned, the facts of a fresh state stored, with a refusal those that stood there.
// Equals: number and facts of Fresh (one answer, by fresh_unique)
#[unsafe(no_mangle)]
pub extern "C" fn corrumai_fresh(sheet: &[u8], held: &mut u64) -> u8
    ensures { Fresh sheet.now held.old result held.new }
{
    let old = *held;
    match run_state::fresh(sheet) {
        Ok(facts) => {
            *held = facts;
            Answer::DONE
        }
        Err(fault) => {
            *held = old;
            u8::from(fault)
        }
    }
}

// The number is returned, the state moved on by one tick, with a refusal left as it stood.
// Equals: number and state of Moved (one answer, by moved_unique)
#[unsafe(no_mangle)]
pub extern "C" fn corrumai_move_on(sheet: &[u8], list: &[u8], delays: &[u16], run: &mut Run) -> u8
    ensures { Moved sheet.now list.now delays.now (state_of run.old) result (state_of run.new) }
{
    match run_state::moved(sheet, list, delays, *run) {
        Ok(after) => {
            *run = after;
            Answer::DONE
        }
        Err(refusal) => u8::from(refusal),
    }
}

// The number is returned, cents and sixtieths stored.
// Equals: number, cents and sixtieths of Costed (one answer, by costed_unique)
#[unsafe(no_mangle)]
pub extern "C" fn corrumai_cost(
    sheet: &[u8],
    list: &[u8],
    rates: &[u32],
    cents: &mut u64,
    sixtieths: &mut u64,
) -> u8
    ensures { Costed sheet.now list.now rates.now result cents.new sixtieths.new }
{
    match cost::cost(sheet, list, rates) {
        Ok(bill) => {
            *cents = bill.cents;
            *sixtieths = bill.sixtieths;
            Answer::DONE
        }
        Err(unbilled) => {
            *cents = 0;
            *sixtieths = 0;
            u8::from(unbilled)
        }
    }
}

// The number is returned; which sheet counts and how many bytes it has are stored, in the place of the part, which no exported
// function can return. The detail is 0: no bytes are written.
// Equals: number, detail, which and length of NewerInC (one answer, by newer_in_c_unique)
#[unsafe(no_mangle)]
pub extern "C" fn corrumai_newer<'a>(
    first: &'a [u8],
    second: &'a [u8],
    detail: &mut usize,
    which: &mut u8,
    part_len: &mut usize,
) -> u8
    ensures { NewerInC first.now second.now result detail.new which.new part_len.new }
{
    let choice = newer::choose(first, second);
    *detail = Answer::NO_DETAIL;
    *which = newer::which(choice);
    *part_len = newer::part(choice, first, second).len();
    newer::number(choice)
}
