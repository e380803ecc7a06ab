//! What a journal has to be, as definitions: that it follows its script, is in the script's order, and is plain.
#![tactic(auto)]
