//! Where in a request a lexeme stands, by the words before it.
ghost use Rattle.std.specs.Prelude.{◌≡◌};
ghost use Rattle.sparql_syntax.specs.Clauses as spec;

use sparql_terminals::Terminal;

/// The clause in which a lexeme stands (SPARQL 1.1 Query, section 19.8, rules 38 to 43).
#[derive(Clone, Copy, Debug, PartialEq, Eq)]
pub(crate) enum Clause {
    /// Behind WHERE, or before all of these words: a pattern, a prologue, an operation on graphs.
    Pattern,
    /// Behind INSERT: its template.
    Insert,
    /// Behind INSERT DATA.
    InsertData,
    /// Right behind DELETE.
    Delete,
    /// The template of DELETE.
    DeleteTemplate,
    /// Behind DELETE DATA.
    DeleteData,
    /// Behind DELETE WHERE.
    DeleteWhere,
}

fn behind_data(clause: Clause) -> Clause
    ensures { result ≡ spec.behind_data clause }
{
    match clause {
        Clause::Insert => Clause::InsertData,
        Clause::Delete => Clause::DeleteData,
        _ => clause,
    }
}

fn behind_where(clause: Clause) -> Clause
    ensures { result ≡ spec.behind_where clause }
{
    match clause {
        Clause::Delete => Clause::DeleteWhere,
        _ => Clause::Pattern,
    }
}

fn behind_brace(clause: Clause) -> Clause
    ensures { result ≡ spec.behind_brace clause }
{
    match clause {
        Clause::Delete => Clause::DeleteTemplate,
        _ => clause,
    }
}

/// The clause behind a lexeme.
pub(crate) fn clause_behind(clause: Clause, terminal: Terminal) -> Clause
    ensures { result ≡ spec.clause_behind clause terminal }
{
    match terminal {
        Terminal::Insert => Clause::Insert,
        Terminal::Delete => Clause::Delete,
        Terminal::Data => behind_data(clause),
        Terminal::Where => behind_where(clause),
        Terminal::OpenBrace => behind_brace(clause),
        _ => clause,
    }
}

/// Whether it is data.
pub(crate) fn is_data(clause: Clause) -> bool
    ensures { result ≡ spec.is_data clause }
{
    match clause {
        Clause::InsertData | Clause::DeleteData => true,
        _ => false,
    }
}

/// Whether it says what is deleted.
pub(crate) fn is_deleted(clause: Clause) -> bool
    ensures { result ≡ spec.is_deleted clause }
{
    match clause {
        Clause::DeleteTemplate | Clause::DeleteData | Clause::DeleteWhere => true,
        _ => false,
    }
}

/// Whether it is this one, of the two in which the labels of blank nodes are told apart.
pub(crate) fn is_same(one: Clause, other: Clause) -> bool
    ensures { result ≡ spec.is_same one other }
{
    match (one, other) {
        (Clause::InsertData, Clause::InsertData) | (Clause::Pattern, Clause::Pattern) => true,
        _ => false,
    }
}
