// Laws that more than one crate cites. There are no functions here: what is proved stands in specs/.
#![tactic(auto)]
