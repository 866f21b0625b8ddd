// What conflict, baseline and redundancy mean over all requests, and the finite search that finds the same.
#![tactic(auto)]
