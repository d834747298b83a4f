// The steps of T-02: their layout, and what a call with a list of them answers. The definitions stand in specs/, their laws in proofs/.
#![tactic(auto)]
