//! What requests of SPARQL 1.1 Update do to a dataset (SPARQL 1.1 Update, sections 3 and 4), and what
//! queries find there (SPARQL 1.1 Query, sections 16 and 18).
//!
//! `rdf_session` calls it, and a host with trees of its own. What a request does is staged in a
//! view: what lies beneath is as before until the caller commits the view's net.
#![tactic(auto)]

mod fault;
mod graphs;
mod laws;
mod modify;
mod net;
mod operations;
mod quads;
mod request;
mod template;
mod unread;

pub use fault::ApplyFault;
pub use laws::{
    copy_reads, drop_all_empties, each_solution_has_its_own_blank_nodes, insert_again,
    insert_data_is_modify, modify_deletes_then_inserts, move_is_copy_then_drop, one_answer,
    operations_are_of_their_graphs, others_stay, silent_changes_nothing,
    templates_stand_in_their_graph,
};
pub use net::net_of_request;
pub use request::{apply, apply_with};
pub use sparql_solve::{Row, Solutions, ask, ask_with, select, select_with, solve};
