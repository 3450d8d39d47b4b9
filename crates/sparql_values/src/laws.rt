//! What holds of the values of expressions.
ghost use Rattle.sparql_values.specs.Laws.{EqualIsSymmetric, EqualToItself, LessOneWay, LogicTable, NotEqualNegates, NotTable, ProductsComeBack, SignedComeBack, SumsComeBack, TruthsComeBack};
ghost use Rattle.sparql_values.specs.MappingLaws.{CompatibleLaws, MergeLaws, SameIsOne, SingleBinds};
ghost use Rattle.sparql_values.specs.Tables.{BoundTable, EffectiveTable, EqualTable, FilterTable, FormTable, FunctionTable, KindTable, LessTable, NoOrderTurned, NumberTable, OneOfThree, OrderTable, VariableTable};
ghost use Rattle.sparql_values.specs.Values.{Bindings};

/// `||`, `&&` and `!` have the tables of section 17.2.
pub fn logic_tables_hold()
    ensures pairs { LogicTable }
    ensures negation { NotTable }
{}

/// `=` is symmetric, and true of a term and itself; `!=` is its negation; of two terms one alone is
/// less than the other.
pub fn comparisons_keep_their_laws()
    ensures symmetric { EqualIsSymmetric }
    ensures own { EqualToItself }
    ensures not_equal { NotEqualNegates }
    ensures one_way { LessOneWay }
{}

/// The effective boolean value of a truth's term is the truth. A sum, a difference, a product or a
/// number behind a sign is the xsd:integer of its number, where it has one.
pub fn results_are_read_back()
    ensures truths { TruthsComeBack }
    ensures sums { SumsComeBack }
    ensures products { ProductsComeBack }
    ensures signs { SignedComeBack }
{}

/// `=` and the comparisons of each pair of kinds of terms (section 17.3). Of two terms that have an
/// order one is less or they are equal; `<=` is `<` or `=`, and an error where there is no order.
pub fn comparison_tables_hold()
    ensures kinds { KindTable }
    ensures bounds { BoundTable }
    ensures equal { EqualTable }
    ensures less { LessTable }
    ensures turned { NoOrderTurned }
    ensures three { OneOfThree }
    ensures orders { OrderTable }
{}

/// The effective boolean value and the functions of each kind of term (sections 17.2.2 and 17.4.2).
pub fn term_tables_hold()
    ensures effective { EffectiveTable }
    ensures functions { FunctionTable }
{}

/// FILTER keeps what is true, neither false nor an error; an unbound variable is an error anywhere but
/// in BOUND; arithmetic within 128 bits is that of whole numbers, past them an error; `||` and `&&` go
/// over the truths of their sides, a comparison, sameTerm and a function over terms, and an error in a
/// part of these is one of the whole (sections 17.2, 17.3, 17.4.1.1 and 17.4.1.8).
pub fn expression_tables_hold()
    ensures filters { (bindings : Bindings) → FilterTable bindings }
    ensures variables { (bindings : Bindings) → VariableTable bindings }
    ensures numbers { (bindings : Bindings) → NumberTable bindings }
    ensures forms { (bindings : Bindings) → FormTable bindings }
{}

/// Two mappings are compatible where they have the same term at each variable that both bind; their
/// merge is then their union, whichever comes first, and binds what one of them does. The mapping that
/// binds nothing is compatible with each and adds nothing (sections 18.1.3 and 18.3).
pub fn mappings_are_merged()
    ensures same { SameIsOne }
    ensures compatible { CompatibleLaws }
    ensures merge { MergeLaws }
    ensures single { SingleBinds }
{}
