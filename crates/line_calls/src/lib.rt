//! What the calls of a cache mean for the line that makes them, whatever session it is of.
#![tactic(auto)]
