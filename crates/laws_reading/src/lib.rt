// Theorems about reading a file, by the definitions of document 01 alone: see specs/. There is no code here.
#![tactic(auto)]
