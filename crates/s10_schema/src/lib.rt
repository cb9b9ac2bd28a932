//! Part of `s10_statements`, split off for the prover alone: the declared tables of a ledger, and
//! what else may be in its database.
#![tactic(auto)]

mod closed_schema;
mod ledger_schema;
mod old_schema;

pub use closed_schema::is_closed_schema;
pub use ledger_schema::is_ledger_schema;
pub use old_schema::is_old_schema;
