// Values of documents 01 and 02, computed from the definitions of all layers; no code. The starred commissioning values are one table with one theorem
// (specs/Values). Beside them: the widths that document 02 names, with values 9 and 11 (Widths); value 10, by the ledger and, with two units out, of every
// store (Losses); a history with plans (Plans).
#![tactic(auto)]
