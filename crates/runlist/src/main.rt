// Reads a sheet on standard input and prints its run list, or the number and detail of another answer.
#![tactic(auto)]

ghost use Rattle.std.specs.Prelude.{◌<◌, ◌≤◌, IfOk, length};
ghost use Rattle.numbers.specs.Size.{word};

use answers::Answer;
use planner::Refusal;
use reader::Fault;
use sheet::{Event, Sheet};
use std::io;
use std::io::Read;

// A longer input is no sheet.
const MAX_INPUT: usize = 4096;

// Room for every list that the planner writes.
const MAX_LIST: usize = 1024;

// Reads until buf is full or the input ends, and returns how many bytes it put at the start of buf.
// The loop stays a `while`: its step is what a read gives, and std's `read_exact` says nothing of an input that ends early.
fn read_full(input: &mut impl Read, buf: &mut [u8]) -> io::Result<usize>
    ensures { IfOk result (λ n. n ≤ length buf.new) }
{
    let mut done = 0;
    while done < buf.len() {
        let n = input.read(&mut buf[done..])?;
        if n == 0 {
            break;
        }
        done += n;
    }
    Ok(done)
}

fn answer(rt: &impl Print, answer: Answer) -> io::Result<()> {
    println!(rt; "ANSWER {} {}", answer.number, answer.detail)
}

// One line: job code, type, fact and tick.
fn line(rt: &impl Print, code: usize, event: Event, tick: usize) -> io::Result<()> {
    let (kind, fact) = match event {
        Event::Begins(f) => ('B', f),
        Event::Ends(f) => ('E', f),
        Event::Sets(f) => ('S', f),
        Event::Clears(f) => ('C', f),
    };
    println!(rt; "{code} {kind} {fact} {tick}")
}

// The events of the job with this code, whose times begin at place.
fn entry(rt: &impl Print, b: &[u8], l: &[u8], code: usize, place: usize) -> io::Result<()>
    requires { place < word }
{
    let mut at = place;
    for e in 0..Sheet::MAX_EVENTS {
        let Some((job, event)) = lent::event(b, e) else {
            return Ok(());
        };
        if job == code {
            line(rt, code, event, sheet::two_at(l, at))?;
            at += 2;
        }
    }
    Ok(())
}

fn print_plan(rt: &impl Print, b: &[u8], l: &[u8]) -> io::Result<()> {
    let count = sheet::two_at(l, 2);
    println!(rt; "PLAN {count}")?;
    for k in 0..count {
        entry(
            rt,
            b,
            l,
            sheet::two_at(l, 4 + 4 * k),
            sheet::two_at(l, 6 + 4 * k),
        )?;
    }
    Ok(())
}

fn run(rt: &impl Print, b: &[u8]) -> io::Result<()> {
    let mut list = [0u8; MAX_LIST];
    match planner::plan(b, &mut list) {
        Ok(_) => print_plan(rt, b, &list),
        Err(refusal) => answer(rt, Answer::from(refusal)),
    }
}

fn main(rt: HostRuntime) -> io::Result<()> {
    let mut input = [0u8; MAX_INPUT + 1];
    let n = read_full(&mut rt.stdin(), &mut input)?;
    if MAX_INPUT < n {
        return answer(&rt, Answer::from(Refusal::Sheet(Fault::Contents)));
    }
    run(&rt, &input[..n])
}
