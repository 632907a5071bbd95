// Demand 3 on the bytes of a log, the table of cases, the wrong mirrors refuted, and that every contract determines its
// answer. There are no functions here: what is proved stands in specs/.
#![tactic(auto)]
