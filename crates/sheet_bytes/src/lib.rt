// Definitions and laws only: the bytes of a sheet, and that what they say is the sheet.
#![tactic(auto)]
