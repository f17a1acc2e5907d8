// What was answered before a request of document 02, compared with what is answered now. No code.
#![tactic(auto)]
