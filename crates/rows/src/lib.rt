// What the rows of document 01 have in common: their form, in specs/, and the laws of sizes, signs and products that the
// functions' proofs stand on, in proofs/. There is no code here.
#![tactic(auto)]
