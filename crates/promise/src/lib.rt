// Demand 3, about every run from fresh: theorems only, in specs/.
#![tactic(auto)]
