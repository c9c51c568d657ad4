// What demand 3 from nothing says of `plan_save_named`: on its premises the call answers, and its answer is right. There is no code here.
#![tactic(auto)]
