// The reference model: document 01's questions and calls over lists, and the laws of them.
#![tactic(auto)]
