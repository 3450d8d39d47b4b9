//! Requests and their operations (SPARQL 1.1 Update, section 3).

use crate::data::{Data, GroundData};
use crate::template::Modify;
use rdf_terms::{Iri, Items};

/// What CLEAR and DROP empty (the grammar's `GraphRefAll`).
#[derive(Debug, Drop)]
pub enum GraphRefAll {
    /// The named graph of this name.
    Graph(Iri),
    /// The default graph.
    Default,
    /// Each named graph.
    Named,
    /// The default graph and each named one.
    All,
}

/// Where COPY, MOVE and ADD take from and bring to (the grammar's `GraphOrDefault`).
#[derive(Debug, Drop)]
pub enum GraphOrDefault {
    /// The default graph.
    Default,
    /// The named graph of this name.
    Graph(Iri),
}

/// One operation of a request.
#[derive(Drop)]
pub enum Operation {
    /// INSERT DATA (section 3.1.1).
    InsertData(Data),
    /// DELETE DATA (section 3.1.2).
    DeleteData(GroundData),
    /// DELETE/INSERT and DELETE WHERE (section 3.1.3).
    Modify(Modify),
    /// CREATE (section 3.2.1).
    Create {
        silent: bool,
        graph: Iri,
    },
    /// CLEAR (section 3.1.5).
    Clear {
        silent: bool,
        graphs: GraphRefAll,
    },
    /// DROP (section 3.2.2).
    Drop {
        silent: bool,
        graphs: GraphRefAll,
    },
    /// COPY (section 3.2.3).
    Copy {
        silent: bool,
        from: GraphOrDefault,
        to: GraphOrDefault,
    },
    /// MOVE (section 3.2.4).
    Move {
        silent: bool,
        from: GraphOrDefault,
        to: GraphOrDefault,
    },
    /// ADD (section 3.2.5).
    Add {
        silent: bool,
        from: GraphOrDefault,
        to: GraphOrDefault,
    },
}

/// Operations that act one after another.
#[derive(Drop)]
pub struct Request {
    /// The operations in order.
    pub operations: Items<Operation>,
}
