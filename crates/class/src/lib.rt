// The class test: 20, 21 and 22, rule by rule over all facts, the lowest fact first.
// It takes the index of the sheet's events, and marks of what is wanted and of what is shown; 20 asks for no order.
#![tactic(auto)]

ghost use Rattle.std.specs.Prelude.{◌<◌, ◌≡◌, map, MatchResult};
ghost use Rattle.rules.specs.Count.{Lowest};
ghost use Rattle.rules.specs.Class.{TwoSetters, WantedUnordered, UnwantedUnordered};
ghost use Rattle.laws.specs.Test.{Says};
ghost use Rattle.sheet.specs.WellFormed.{said_by};
ghost use Rattle.index.specs.View.{IndexOf};
ghost use Rattle.marks.specs.View.{WantedFacts, MarkedSheet};
ghost use Rattle.class.specs.Answer.{number_of, Breaks, Kept, ClassOf};
ghost use Rattle.class.specs.View.{Several, AsksRule, AsksBreaks, Found};

use index::{Column, Columns};
use marks::{Mark, Marks};
use sheet::WellFormed;

// The class rules, in the order of their numbers.
#[derive(Clone, Copy)]
pub enum Rule {
    Setters,
    Wanted,
    Unwanted,
}

// Why a sheet is outside the class: the first rule that is broken, and the lowest fact that breaks it.
#[derive(Clone, Copy)]
pub struct Outside {
    pub rule: Rule,
    pub fact: usize,
}

// Equals: number_of rule
impl From<Rule> for u8 {
    ghost from_gives = { λ rule n. n ≡ number_of rule };

    fn from(rule: Rule) -> u8 {
        match rule {
            Rule::Setters => 20,
            Rule::Wanted => 21,
            Rule::Unwanted => 22,
        }
    }
}

// Do two present jobs set fact f? Then one of them is not that of its first set.
fn several<'a>(sheet: &WellFormed, columns: Columns<'a>, f: usize) -> bool
    requires index { IndexOf (said_by sheet.now) (map (λ x. x.now) columns) }
    requires f_bound { f < (said_by sheet.now).facts }
    ensures { Says (Several (said_by sheet.now) f) result }
{
    let start = index::at(columns, Column::SETS, f);
    let end = index::at(columns, Column::SETS, f + 1);
    (start..end).any(|r| index::job_at(sheet.view, sheet.bytes, columns, r)
        != index::job_at(sheet.view, sheet.bytes, columns, start))
}

// Rule 20: a wanted fact, not initial, that two or more present jobs set.
fn two_setters<'a, 'm>(sheet: &WellFormed, columns: Columns<'a>, marks: Marks<'m>, f: usize) -> bool
    requires { AsksBreaks Rule.Setters sheet.now (map (λ x. x.now) columns) (map (λ x. x.now) marks) f }
    ensures { Says (TwoSetters (said_by sheet.now) f) result }
{
    if !marks::on(marks, Mark::FACTS, f) {
        return false;
    }
    if sheet.initial(f) {
        return false;
    }
    several(sheet, columns, f)
}

// Rule 21: a wanted fact shown in neither order, or an initial one not shown cleared last.
fn wanted_unordered<'a, 'm>(
    sheet: &WellFormed,
    columns: Columns<'a>,
    marks: Marks<'m>,
    f: usize,
) -> bool
    requires { AsksBreaks Rule.Wanted sheet.now (map (λ x. x.now) columns) (map (λ x. x.now) marks) f }
    ensures { Says (WantedUnordered (said_by sheet.now) f) result }
{
    if !marks::on(marks, Mark::FACTS, f) {
        return false;
    }
    if marks::on(marks, Mark::LAST, f) {
        return false;
    }
    if !marks::on(marks, Mark::FIRST, f) {
        return true;
    }
    sheet.initial(f)
}

// Rule 22: a fact not wanted, both set and cleared by wanted jobs, shown in neither order.
fn unwanted_unordered<'a, 'm>(
    sheet: &WellFormed,
    columns: Columns<'a>,
    marks: Marks<'m>,
    f: usize,
) -> bool
    requires { AsksBreaks Rule.Unwanted sheet.now (map (λ x. x.now) columns) (map (λ x. x.now) marks) f }
    ensures { Says (UnwantedUnordered (said_by sheet.now) f) result }
{
    if marks::on(marks, Mark::FACTS, f) {
        return false;
    }
    if marks::on(marks, Mark::LAST, f) {
        return false;
    }
    if marks::on(marks, Mark::FIRST, f) {
        return false;
    }
    if !marks::by_wanted(sheet, columns, marks, Column::SETS, f) {
        return false;
    }
    marks::by_wanted(sheet, columns, marks, Column::CLEARS, f)
}

// Does fact f break this rule?
fn breaks<'a, 'm>(
    rule: Rule,
    sheet: &WellFormed,
    columns: Columns<'a>,
    marks: Marks<'m>,
    f: usize,
) -> bool
    requires { AsksBreaks rule sheet.now (map (λ x. x.now) columns) (map (λ x. x.now) marks) f }
    ensures { Says (Breaks rule (said_by sheet.now) f) result }
{
    match rule {
        Rule::Setters => two_setters(sheet, columns, marks, f),
        Rule::Wanted => wanted_unordered(sheet, columns, marks, f),
        Rule::Unwanted => unwanted_unordered(sheet, columns, marks, f),
    }
}

// The lowest fact that breaks this rule.
fn lowest<'a, 'm>(
    rule: Rule,
    sheet: &WellFormed,
    columns: Columns<'a>,
    marks: Marks<'m>,
) -> Option<usize>
    requires { AsksRule rule sheet.now (map (λ x. x.now) columns) (map (λ x. x.now) marks) }
    ensures { Found (Breaks rule (said_by sheet.now)) (said_by sheet.now).facts result }
{
    (0..sheet.view.facts).find(|f| breaks(rule, sheet, columns, marks, *f))
}

// Is this rule kept? Else the lowest fact that breaks it.
fn kept<'a, 'm>(
    rule: Rule,
    sheet: &WellFormed,
    columns: Columns<'a>,
    marks: Marks<'m>,
) -> Result<(), Outside>
    requires { AsksRule rule sheet.now (map (λ x. x.now) columns) (map (λ x. x.now) marks) }
    ensures { MatchResult result (λ _. Kept rule (said_by sheet.now)) (λ o. (o.rule ≡ rule) × Lowest (Breaks rule (said_by sheet.now)) (said_by sheet.now).facts o.fact) }
{
    match lowest(rule, sheet, columns, marks) {
        Some(fact) => Err(Outside { rule, fact }),
        None => Ok(()),
    }
}

// Rule 20, by the wanted facts alone: the lowest fact that breaks it.
// Equals: the lowest fact with TwoSetters, if there is one (Found)
pub fn setters<'a, 'm>(sheet: &WellFormed, columns: Columns<'a>, facts: &'m [bool]) -> Option<usize>
    requires index { IndexOf (said_by sheet.now) (map (λ x. x.now) columns) }
    requires wanted_facts { WantedFacts (said_by sheet.now) facts.now }
    ensures { Found (TwoSetters (said_by sheet.now)) (said_by sheet.now).facts result }
{
    // The rule looks at no other marks.
    let marks = [facts, facts, facts, facts];
    lowest(Rule::Setters, sheet, columns, marks)
}

// Rules 21 and 22 one after the other, each over all facts, where 20 is kept.
// Equals: Ok inside the class, or the first broken rule and the lowest fact that breaks it (ClassOf; one answer, by class_one)
pub fn class_of<'a, 'm>(
    sheet: &WellFormed,
    columns: Columns<'a>,
    marks: Marks<'m>,
) -> Result<(), Outside>
    requires marked_sheet { MarkedSheet sheet.now (map (λ x. x.now) columns) (map (λ x. x.now) marks) }
    requires kept { Kept Rule.Setters (said_by sheet.now) }
    ensures { ClassOf (said_by sheet.now) result }
{
    kept(Rule::Wanted, sheet, columns, marks)?;
    kept(Rule::Unwanted, sheet, columns, marks)
}
