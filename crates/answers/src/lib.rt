// The answers of judge, planner, rewriting, what follows the judge, and which sheet counts: a number of the table "Answer numbers",
// and its detail. The numbers of a sheet's faults are with `reader`, those of the class with `class`.
#![tactic(auto)]

ghost use Rattle.std.specs.Prelude.{◌≡◌};

#[derive(Clone, Copy)]
pub struct Answer {
    pub number: u8,
    pub detail: usize,
}

impl Answer {
    // The list is a plan, or is written; so is a sheet of the other edition; a state is fresh, or moved on; a run is billed.
    pub const DONE: u8 = 0;

    pub const NO_PLAN: u8 = 1;
    // The buffer is too short for the list or the sheet.
    pub const SHORT: u8 = 30;

    pub const LIST_FORM: u8 = 40;

    pub const NOT_A_PLAN: u8 = 41;
    // Edition 1 cannot say what the sheet says.
    pub const NO_WAY_BACK: u8 = 50;
    // The rates are not one for each job, or one is too high.
    pub const BAD_RATES: u8 = 51;
    // Of two sheets one counts.
    pub const CHOSEN: u8 = 0;
    // Two sheets have the same revision and other bytes.
    pub const OTHER_BYTES: u8 = 56;

    pub const NO_DETAIL: usize = 0;

    // The answer of what is done and not refused.
    // Equals: number 0 and the detail
    pub fn done(detail: usize) -> Answer
        ensures { (result.number ≡ 0) × (result.detail ≡ detail) }
    {
        Answer {
            number: Answer::DONE,
            detail: detail,
        }
    }
}
