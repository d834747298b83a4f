// What a priced parts list and the report on a range of drawings are: the definitions stand in specs/, their laws in proofs/. The code that meets them is in `parts` and `price`.
#![tactic(auto)]
