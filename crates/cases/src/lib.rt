// The cases that document 01 marks (P), proved together as one table: specs/Rows.antt has the rows and
// proofs/Table.antt the one theorem. It has no code of its own.
#![tactic(auto)]
