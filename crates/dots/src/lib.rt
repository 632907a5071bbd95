// Frames of dots, over any landing and any number of lines. There are no functions here: what is proved stands in specs/.
#![tactic(auto)]
