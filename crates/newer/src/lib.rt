// Which of two sheets counts: of two sheets of edition 2 the one with the higher revision. It is decided once, by `choose`, and the
// caller gets back that very slice.
#![tactic(auto)]

ghost use Rattle.std.specs.Prelude.{◌≡◌, ◌⊎◌, length};
ghost use Rattle.rules.specs.Newer.{Which, BothFormed, revision, Newer, which_in_c};
ghost use Rattle.reader.specs.Reads.{ReadIn};
ghost use Rattle.newer.specs.declared.Refusal.{Refusal};
ghost use Rattle.newer.specs.View.{refusal_number, number_of, which_of, Handed};

use answers::Answer;
use reader::Fault;
use sheet::{Sheet, WellFormed};

// Which of the two counts.
#[derive(Clone, Copy)]
pub enum Choice {
    First,
    Second,
}

// Why neither counts, first number first.
#[derive(Clone, Copy)]
pub enum Refusal {
    Sheet(Fault),
    // One revision and other bytes.
    OtherBytes,
}

impl From<Fault> for Refusal {
    ghost from_gives = { λ x r. r ≡ Refusal.Sheet x };

    fn from(fault: Fault) -> Refusal {
        Refusal::Sheet(fault)
    }
}

impl From<Refusal> for u8 {
    ghost from_gives = { λ x r. r ≡ refusal_number x };

    // Equals: refusal_number refusal
    fn from(refusal: Refusal) -> u8 {
        match refusal {
            Refusal::Sheet(fault) => u8::from(fault),
            Refusal::OtherBytes => Answer::OTHER_BYTES,
        }
    }
}

impl Choice {
    // How C is told which.
    pub const FIRST: u8 = 0;

    pub const SECOND: u8 = 1;

    pub const NEITHER: u8 = 0;
}

// Equals: number_of choice
pub fn number(choice: Result<Choice, Refusal>) -> u8
    ensures { result ≡ number_of choice }
{
    match choice {
        Ok(_) => Answer::CHOSEN,
        Err(refusal) => u8::from(refusal),
    }
}

// Equals: which_in_c (which_of choice)
#[tactic(auto, unfolding(rules::specs::Newer::which_in_c))]
pub fn which(choice: Result<Choice, Refusal>) -> u8
    ensures { result ≡ which_in_c (which_of choice) }
{
    match choice {
        Ok(Choice::First) => Choice::FIRST,
        Ok(Choice::Second) => Choice::SECOND,
        Err(_) => Choice::NEITHER,
    }
}

// The slice that counts, at its place, or an empty one.
// Equals: one of the two slices, or an empty one, by Handed (which_of choice)
// Free: where an empty part lies
pub fn part<'a>(choice: Result<Choice, Refusal>, first: &'a [u8], second: &'a [u8]) -> &'a [u8]
    ensures { Handed (which_of choice) first.entry second.entry result result.now }
{
    match choice {
        Ok(Choice::First) => first,
        Ok(Choice::Second) => second,
        Err(_) => &first[..0],
    }
}

// Of two well-formed sheets with one revision.
fn by_bytes(first: &[u8], second: &[u8]) -> Result<Choice, Refusal>
    requires { BothFormed first.now second.now × (revision first.now ≡ revision second.now) }
    ensures { Newer first.now second.now (number_of result) (which_of result) }
{
    if first == second {
        return Ok(Choice::First);
    }
    Err(Refusal::OtherBytes)
}

// Of two well-formed sheets.
fn by_revision(first: &WellFormed, second: &WellFormed) -> Result<Choice, Refusal>
    requires { ReadIn 2 first.now.bytes.now first.now × ReadIn 2 second.now.bytes.now second.now }
    ensures { Newer first.now.bytes.now second.now.bytes.now (number_of result) (which_of result) }
{
    let one = first.revision();
    let other = second.revision();
    if other < one {
        return Ok(Choice::First);
    }
    if one < other {
        return Ok(Choice::Second);
    }
    by_bytes(first.bytes, second.bytes)
}

// Equals: number and which of Newer (one answer, by newer_unique)
pub fn choose(first: &[u8], second: &[u8]) -> Result<Choice, Refusal>
    ensures { Newer first.now second.now (number_of result) (which_of result) }
{
    let v = reader::read_in(first, Sheet::EDITION_2)?;
    let w = reader::read_in(second, Sheet::EDITION_2)?;
    by_revision(&v, &w)
}

// The number is stored, the part returned: the slice that was handed in, at its place.
// Equals: number and part of Newer, first, second or empty (one answer, by newer_unique)
// Free: where an empty part lies
pub fn newer<'a>(first: &'a [u8], second: &'a [u8], number: &mut u8) -> &'a [u8]
    ensures { (Newer first.now second.now number.new Which.first × (result ≡ first.entry))
        ⊎ (Newer first.now second.now number.new Which.second × (result ≡ second.entry))
        ⊎ (Newer first.now second.now number.new Which.none × (length result.now ≡ 0)) }
{
    let choice = choose(first, second);
    *number = self::number(choice);
    part(choice, first, second)
}
