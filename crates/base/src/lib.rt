// The definitions of bytes and packed symbols stand in specs/, their laws in proofs/. There is no
// code here.

#![tactic(auto)]
