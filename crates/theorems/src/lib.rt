// Every theorem of the project in one record, and its value. No code.
#![tactic(auto)]
