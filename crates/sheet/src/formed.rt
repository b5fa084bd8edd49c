// A well-formed sheet, as the reader hands it on: all behind the reader take this.
#![tactic(auto)]

ghost use Rattle.std.specs.Prelude.{◌≡◌, true};
ghost use Rattle.std.proofs.Props.{props};
ghost use Rattle.rules.specs.Sheet.{well_formed};
ghost use Rattle.laws.specs.Events.{Small};
ghost use Rattle.sheet.specs.View.{meaning, Counted};
ghost use Rattle.sheet.specs.Props.{counted_prop, small_prop};

use crate::Sheet;

// What its bytes say, and the bytes.
#[derive(Clone, Copy)]
pub struct WellFormed<'a> {
    pub view: Sheet,
    pub bytes: &'a [u8],
    // The rows that are counted lie in the bytes.
    ghost counted: { Counted view bytes.now } by { counted_prop view bytes.now },
    // There are few of them.
    ghost few: { Small (meaning view bytes.now) } by { small_prop (meaning view bytes.now) },
    // The rules of "The sheet" are kept.
    ghost well: { well_formed (meaning view bytes.now) ≡ true } by { Prim.hlevel props },
}
