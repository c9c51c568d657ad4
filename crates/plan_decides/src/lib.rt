// What demand 3 says of `plan_save`: on its premises the call answers, and its answer is right. There is no code here.
#![tactic(auto)]
