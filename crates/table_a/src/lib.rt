// Table A of document 01, shown true of the definitions. No code.
#![tactic(auto)]
