//! The tree of a request, whose names are as written (SPARQL 1.1 Query, section 19.8).

pub use rdf_grammar::{Literal, Name};
use rdf_terms::Items;
use rdf_tokens::Slice;
pub use sparql_expressions::Expression;

/// A variable or a name (107: VarOrIri).
#[derive(Debug, Drop)]
pub enum VarOrIri<'a> {
    /// With its `?` or `$`.
    Variable(Slice<'a>),
    Name(Name<'a>),
}

/// A verb (78: Verb): a variable, a name, or `a`.
#[derive(Debug, Drop)]
pub enum Verb<'a> {
    /// With its `?` or `$`.
    Variable(Slice<'a>),
    Name(Name<'a>),
    Type,
}

/// What may be a subject or an object (104: GraphNode).
#[cycle(node)]
#[derive(Drop)]
pub enum Node<'a> {
    /// With its `?` or `$`.
    Variable(Slice<'a>),
    Name(Name<'a>),
    Literal(Literal<'a>),
    Label(Slice<'a>),
    /// The bracket, and `[ ]` or the properties behind it.
    Blank(Slice<'a>, Items<Property<'a>>),
    /// The bracket, and the elements behind it.
    Collection(Slice<'a>, Items<Node<'a>>),
}

/// A verb with its objects.
#[cycle(node)]
#[derive(Drop)]
pub struct Property<'a> {
    pub verb: Verb<'a>,
    pub objects: Items<Node<'a>>,
}

/// Triples about one subject (75: TriplesSameSubject).
#[derive(Drop)]
pub struct Triples<'a> {
    pub subject: Node<'a>,
    pub properties: Items<Property<'a>>,
}

/// Triples of one graph: the default graph, or the named one of a GRAPH block (51: QuadsNotTriples).
#[derive(Drop)]
pub struct Block<'a> {
    pub graph: Option<VarOrIri<'a>>,
    pub triples: Items<Triples<'a>>,
}

/// What CLEAR and DROP empty (47: GraphRefAll).
#[derive(Debug, Drop)]
pub enum GraphRefAll<'a> {
    Graph(Name<'a>),
    Default,
    Named,
    All,
}

/// Where COPY, MOVE and ADD take from and bring to (45: GraphOrDefault).
#[derive(Debug, Drop)]
pub enum GraphOrDefault<'a> {
    Default,
    Graph(Name<'a>),
}

/// DELETE and INSERT by the solutions of a group (41: Modify). A template that isn't there has no
/// block, and one that is has one at least.
#[derive(Drop)]
pub struct Modify<'a> {
    /// The graph of WITH.
    pub with: Option<Name<'a>>,
    /// 42: DeleteClause.
    pub delete: Items<Block<'a>>,
    /// 43: InsertClause.
    pub insert: Items<Block<'a>>,
    /// What stands behind WHERE.
    pub group: Group<'a>,
}

/// One operation (30: Update1). Data and templates are blocks, those of the default graph and those
/// of GRAPH in turn (50: Quads).
#[derive(Drop)]
pub enum Operation<'a> {
    InsertData(Items<Block<'a>>),
    DeleteData(Items<Block<'a>>),
    /// What is asked for and deleted (40: DeleteWhere).
    DeleteWhere(Items<Block<'a>>),
    Modify(Modify<'a>),
    Create {
        silent: bool,
        graph: Name<'a>,
    },
    Clear {
        silent: bool,
        graphs: GraphRefAll<'a>,
    },
    Drop {
        silent: bool,
        graphs: GraphRefAll<'a>,
    },
    Copy {
        silent: bool,
        from: GraphOrDefault<'a>,
        to: GraphOrDefault<'a>,
    },
    Move {
        silent: bool,
        from: GraphOrDefault<'a>,
        to: GraphOrDefault<'a>,
    },
    Add {
        silent: bool,
        from: GraphOrDefault<'a>,
        to: GraphOrDefault<'a>,
    },
}

/// A declaration of a prologue (4: Prologue).
#[derive(Drop)]
pub enum Declaration<'a> {
    /// The prefix without its colon, and the reference.
    Prefix(Slice<'a>, Slice<'a>),
    /// The reference.
    Base(Slice<'a>),
}

/// A part of a request (29: Update): a declaration of its prologues, or an operation.
#[derive(Drop)]
pub enum Part<'a> {
    Declaration(Declaration<'a>),
    Operation(Operation<'a>),
}

/// A group graph pattern (53: GroupGraphPattern).
#[cycle(group)]
#[derive(Drop)]
pub struct Group<'a> {
    /// What stands between the braces besides FILTERs, in the order of the text. Triples with
    /// nothing but FILTERs between them stand together.
    pub members: Items<Member<'a>>,
    /// What its FILTERs ask (68: Filter), in the order of the text.
    pub filters: Items<Expression<'a>>,
}

/// A member of a group (54: GroupGraphPatternSub).
#[cycle(group)]
#[derive(Drop)]
pub enum Member<'a> {
    /// Triples that stand together (55: TriplesBlock).
    Triples(Items<Triples<'a>>),
    /// Groups with UNION between them, or one group alone (67: GroupOrUnionGraphPattern).
    Union(Items<Group<'a>>),
    /// 57: OptionalGraphPattern.
    Optional(Group<'a>),
    /// 58: GraphGraphPattern.
    Graph(VarOrIri<'a>, Group<'a>),
    /// 66: MinusGraphPattern.
    Minus(Group<'a>),
}

/// What stands between a group's braces, one behind the other (54: GroupGraphPatternSub).
#[derive(Drop)]
pub enum Element<'a> {
    /// 55: TriplesBlock.
    Block(Items<Triples<'a>>),
    /// 68: Filter.
    Filter(Expression<'a>),
    /// What else is no triples (56: GraphPatternNotTriples).
    Pattern(Member<'a>),
}

/// What SELECT names (9: SelectClause).
#[derive(Drop)]
pub enum Columns<'a> {
    /// `*`.
    All,
    /// Each with its `?` or `$`.
    Variables(Items<Slice<'a>>),
}

/// A query behind its prologue (2: Query).
#[derive(Drop)]
pub enum QueryForm<'a> {
    /// 7: SelectQuery.
    Select {
        distinct: bool,
        columns: Columns<'a>,
        group: Group<'a>,
    },
    /// 12: AskQuery.
    Ask(Group<'a>),
}

/// A query (2: Query).
#[derive(Drop)]
pub struct Query<'a> {
    pub prologue: Items<Declaration<'a>>,
    pub form: QueryForm<'a>,
}
