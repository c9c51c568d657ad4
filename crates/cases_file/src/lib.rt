// The parts of a recorded case. tools/case_file.py has the form of the files.
#![tactic(auto)]

pub mod case;
pub mod input;
