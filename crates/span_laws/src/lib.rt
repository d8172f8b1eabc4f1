// The theorem of the spans: an f64 converts to a pattern exactly when it lies in that pattern's span. There is no code here.
#![tactic(auto)]
