// The definitions of read names stand in specs/, their laws and theorems in proofs/. There is no
// code here.

#![tactic(auto)]
