// Document 01's starred rows: one list and one statement about it, in specs/.
#![tactic(auto)]
