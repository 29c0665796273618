// The theorems about the definitions of crate model. There is no code here.
#![tactic(auto)]
