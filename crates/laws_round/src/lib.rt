// Theorems about a whole round and the bytes of its result, by the definitions of document 01 alone: see specs/. There is no code here.
#![tactic(auto)]
