//! What the answers of a stripe tell, what is asked of its writers and readers, and which pieces stand by their puts.
#![tactic(auto)]
