// Striking records out of a log, for any machine that answers records. There are no functions here: what is proved stands in specs/.
#![tactic(auto)]
