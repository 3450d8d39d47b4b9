//! What holds of the algebra of patterns, and of the results of queries.
ghost use Rattle.sparql_algebra.specs.Laws.{SomeListing, ListingsAgree, TriplesAreHeld, NamesAreHeld, AssignmentsCountOnce, AssignmentsListed, VariablesInOrder, VariablesAreAll, NamedInOrder, NamedAreAll, VisibleAreBound, ShownCountsSame, NothingLeftOut, TriplesBindTheirOwn, SomeSolutions, SolutionsAgree, SomeSelection, OneSelection, SomeAnswer, OneAnswer, AnswerTellsSolutions, SomeSolutionList, OneSolutionList, SolutionsOfState, SolutionsOfTerms, SolutionsBelow};
ghost use Rattle.sparql_algebra.specs.Counts as counts;
ghost use Rattle.sparql_algebra.specs.Growth.{MergesGrow};
ghost use Rattle.sparql_algebra.specs.Listing.{Listing};
ghost use Rattle.sparql_values.specs.Mapping.{Variables};

/// The counts of the algebra, operator by operator: sums over pairs of compatible mappings whose
/// merge is the mapping (SPARQL 1.1 Query, sections 18.3.1 and 18.5). A basic graph pattern counts
/// a mapping once for each assignment of its hidden variables; Filter counts it as before where the
/// condition is true of it, and LeftJoin asks the condition of each merge. Minus counts it as before
/// where no compatible mapping has a variable in common with it, and not at all where one has.
pub fn counts_are_the_algebra()
    ensures basic { (vs : Variables) (d : Listing) → counts.BasicLaw vs d }
    ensures join { (vs : Variables) (d : Listing) → counts.JoinLaw vs d }
    ensures left_join { (vs : Variables) (d : Listing) → counts.LeftJoinLaw vs d }
    ensures filter { (vs : Variables) (d : Listing) → counts.FilterLaw vs d }
    ensures union { (vs : Variables) (d : Listing) → counts.UnionLaw vs d }
    ensures minus { (vs : Variables) (d : Listing) → counts.MinusLaw vs d }
    ensures named { (vs : Variables) (d : Listing) → counts.NamedLaw vs d }
    ensures variable { (vs : Variables) (d : Listing) → counts.VariableLaw vs d }
    ensures listed { (vs : Variables) (d : Listing) → counts.ListedLaw vs d }
{}

/// Join and Union are commutative, Join is associative, the empty pattern is Join's unit, and a
/// mapping without a partner keeps its count under LeftJoin. A condition without expressions is
/// true of every mapping, one with several may be asked expression by expression, and Filter of a
/// Union is the Union of both filtered.
pub fn operators_keep_their_laws()
    ensures join_commutes { (vs : Variables) (d : Listing) → counts.JoinCommutes vs d }
    ensures join_associates { (vs : Variables) (d : Listing) → counts.JoinAssociates vs d }
    ensures empty_is_unit { (vs : Variables) (d : Listing) → counts.EmptyIsUnit vs d }
    ensures union_commutes { (vs : Variables) (d : Listing) → counts.UnionCommutes vs d }
    ensures lonely_stay { (vs : Variables) (d : Listing) → counts.LonelyStay vs d }
    ensures empty_condition { (vs : Variables) (d : Listing) → counts.EmptyConditionHolds vs d }
    ensures filters_follow { (vs : Variables) (d : Listing) → counts.FiltersFollow vs d }
    ensures filter_union { (vs : Variables) (d : Listing) → counts.FilterEntersUnion vs d }
{}

/// The graphs of every state can be listed, and the counts don't depend on how: a triple lies in a
/// graph where the state holds its quad, a graph is there where the state has its name, and a basic
/// graph pattern counts a mapping once for each assignment of its hidden variables under which
/// every instance is a triple of the graph.
pub fn counts_depend_on_the_state()
    ensures listing { SomeListing }
    ensures agree { ListingsAgree }
    ensures triples { TriplesAreHeld }
    ensures names { NamesAreHeld }
    ensures assignments { AssignmentsCountOnce }
    ensures assignments_listed { AssignmentsListed }
{}

/// Minus counts no mapping more than its left side does. What has no variable in common with a
/// mapping takes none of it away, as the empty pattern does, and each compatible mapping that has
/// takes all of it. Minus of a Union takes away what one side and then the other one does.
pub fn minus_takes_away()
    ensures adds_none { (vs : Variables) (d : Listing) → counts.MinusAddsNone vs d }
    ensures nothing_shared { (vs : Variables) (d : Listing) → counts.NothingShared vs d }
    ensures shared { (vs : Variables) (d : Listing) → counts.SharedIsTaken vs d }
    ensures empty { (vs : Variables) (d : Listing) → counts.EmptyTakesNone vs d }
    ensures of_union { (vs : Variables) (d : Listing) → counts.MinusOfUnion vs d }
{}

/// Each pattern has solutions in each graph, and any two lists of them hold each mapping as often.
/// Their variables are those of the pattern's triple patterns and GRAPHs, in the order of their
/// names, each once (SPARQL 1.1 Query, section 18.2.1).
pub fn solutions_agree()
    ensures order { VariablesInOrder }
    ensures all { VariablesAreAll }
    ensures some { SomeSolutions }
    ensures agree { SolutionsAgree }
{}

/// Solutions are found over all variables that a pattern names, in MINUS too, and shown at those
/// that stand outside it: these alone are bound, so nothing is lost. Where no variable stands in
/// MINUS alone, they are found over the visible ones. Triple patterns in MINUS bind their variables,
/// as those outside do (SPARQL 1.1 Query, sections 18.2.1 and 18.5).
pub fn variables_of_minus()
    ensures order { NamedInOrder }
    ensures all { NamedAreAll }
    ensures bound { VisibleAreBound }
    ensures counts { ShownCountsSame }
    ensures same { NothingLeftOut }
    ensures triples { TriplesBindTheirOwn }
{}

/// Each SELECT has one list of rows.
pub fn one_selection()
    ensures some { SomeSelection }
    ensures one { OneSelection }
{}

/// Each ASK has one answer: whether some mapping is counted.
pub fn one_answer()
    ensures some { SomeAnswer }
    ensures one { OneAnswer }
    ensures tells { AnswerTellsSolutions }
{}

/// With the values of a left solution put in, the assignments of a basic graph pattern grow from it
/// by the pattern's columns: these are its merges with the compatible assignments, each once.
pub fn merges_grow()
    ensures { MergesGrow }
{}

/// Each pattern has one list of solutions in each graph: sorted, each mapping as often as the
/// algebra counts it.
pub fn one_solution_list()
    ensures some { SomeSolutionList }
    ensures one { OneSolutionList }
{}

/// Solutions bind terms of the dataset alone: each stands in a quad, or is the name of a graph. So
/// in a sound state each is a term of RDF, and a blank node's number is below the next one.
pub fn solutions_are_of_the_dataset()
    ensures of_state { SolutionsOfState }
    ensures terms { SolutionsOfTerms }
    ensures below { SolutionsBelow }
{}
