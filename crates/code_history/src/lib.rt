// The history rule said of the code: no function of its own.
#![tactic(auto)]
