// The encoding of a cell's plans as clauses: what tables, plans, variables and clauses are, in specs/, and what is proved of them.
#![tactic(auto)]

pub mod laws;
