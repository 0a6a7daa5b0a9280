//! Placed netlists, in `specs/`: rows of instances with their supplies and ports, how long the nets are, and the order in
//! which the instances stand.
#![tactic(auto)]
