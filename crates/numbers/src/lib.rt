// No code: how many numbers a byte and two bytes can hold stands in specs/. Conversions and limits are the library's.
#![tactic(auto)]
