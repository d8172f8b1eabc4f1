// The laws of the listing in pieces: which states calls produce, that the cuts change nothing, and when each refusal comes. There is
// no code here.
#![tactic(auto)]
