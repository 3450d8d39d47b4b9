//! The texts that the program shows a newcomer.

/// The name of the program.
pub(crate) const NAME: &str = "rdfkeep";

/// The version of the program.
pub(crate) const VERSION: &str = "0.1.0";

/// What the program is for, and its words in groups, each with the first line of its own text.
pub(crate) const HELP: &str = "\
Keeps an RDF dataset, and takes back what was changed

Usage: rdfkeep <COMMAND>

Scripts:
  run      Runs a script of commands on a dataset, and prints an answer to each

One question, one change, one check:
  query    Answers one query of data
  update   Applies one request to data, and writes the dataset behind it
  check    Reads documents, and says of each how many statements it has

Conversion:
  convert  Writes each statement of a document as a canonical line of N-Quads

Help:
  help     Print this message or the help of the given subcommand(s)

Options:
  -h, --help     Print help
  -V, --version  Print version";

/// What `run` does, in one line.
pub(crate) const RUN_ABOUT: &str =
    "Runs a script of commands on a dataset, and prints an answer to each";

/// A script, and what it prints.
pub(crate) const RUN_EXAMPLE: &str = "\
Commands:
  %load nquads       load the lines up to %end, a document of N-Quads;
                     also %load ntriples and %load turtle
  %update            apply the lines up to %end, an update in SPARQL
  %query             answer the lines up to %end, a query in SPARQL
  %print             print the quads
  %graphs            print the names of the graphs
  %state             print the state whole, to be saved
  %undo, %redo       take back the last change, or make it again
  %mark NAME         give this state a name
  %rollback NAME     go back to the state of that name
  %changes           print what differs from the start
  %commit            make this state the start

--base holds for every body: relative IRIs, like <ada>, in updates and queries are resolved
against it as those of Turtle are, where the text declares no base.

What %state prints, without its last line, is a state text: --data FILE --format state begins
at that very state, empty graphs and the numbers of blank nodes included, without a history.

--depth N forgets the oldest of N loads and updates as one more comes, so that a long session
holds no more of them. The state behind the one that is forgotten becomes the start.

Example: a script that loads one statement, prints it and takes it back
  %load nquads
  <http://example.org/ada> <http://example.org/knows> <http://example.org/bob> .
  %end
  %print
  %undo

It prints
  ok +1 -0
  <http://example.org/ada> <http://example.org/knows> <http://example.org/bob> .
  ok 1
  ok +0 -1

Each command is answered as soon as its last line was read, so a script may come over a pipe
while it is written. A dialogue with bash's coprocess:
  coproc rdfkeep run
  echo %print >&${COPROC[1]}; read -r answer <&${COPROC[0]}; echo \"$answer\"

Exit status: 0 all commands were accepted, 1 one was refused, 2 the words, the base or the data
are wrong, 3 reading or writing failed, 4 memory was wanting.";

/// What `convert` does, in one line.
pub(crate) const CONVERT_ABOUT: &str =
    "Writes each statement of a document as a canonical line of N-Quads";

/// A conversion, and what it prints.
pub(crate) const CONVERT_EXAMPLE: &str = "\
The statements keep their order and their repeats; blank nodes become _:b0, _:b1 and so on.

nquads and ntriples are written while they are read. A faulty line ends the conversion: the
statements before it are written. turtle is read whole, and a faulty document writes nothing.
In Turtle a relative IRI, like <ada>, needs @base in the document or --base here.

Examples:
  rdfkeep convert --from ntriples people.nt > people.nq
  rdfkeep convert --from turtle --base http://example.org/ people.ttl > people.nq

Exit status: 0 the whole document was written, 1 the document is faulty, 2 the words or the base
are wrong, 3 reading or writing failed, 4 memory was wanting.";

/// What `query` does, in one line.
pub(crate) const QUERY_ABOUT: &str = "Answers one query of data";

/// What `query` reads and writes, and how it ends.
pub(crate) const QUERY_EXAMPLE: &str = "\
The data are loaded as `run` loads them, each FILE as a document of its own: blank nodes of
two files are never the same. A state text stands first. Without --data the dataset is empty.

Written are the header and the rows, or true or false, in SPARQL's format of that name, and
nothing else. A query that is refused writes nothing.

Examples:
  rdfkeep query --data people.nq names.rq
  rdfkeep query --data a.nq --data b.ttl --format turtle --results json names.rq

Exit status: 0 the query was answered, 1 it was refused, 2 the words, the base or the data are
wrong, 3 reading or writing failed, 4 memory was wanting.";

/// What `update` does, in one line.
pub(crate) const UPDATE_ABOUT: &str =
    "Applies one request to data, and writes the dataset behind it";

/// What `update` reads and writes, and how it ends.
pub(crate) const UPDATE_EXAMPLE: &str = "\
The data are loaded as `query` loads them. Written is the dataset behind the request as sorted
N-Quads; with --to state its state text, which keeps empty graphs and the numbers of blank
nodes; with --changes what the request removed and added. A request that is refused writes
nothing.

Examples:
  rdfkeep update --data people.nq change.ru > changed.nq
  rdfkeep update --data people.nq --changes change.ru

Exit status: 0 the request was applied, 1 it was refused, 2 the words, the base or the data are
wrong, 3 reading or writing failed, 4 memory was wanting.";

/// What `check` does, in one line.
pub(crate) const CHECK_ABOUT: &str = "Reads documents, and says of each how many statements it has";

/// What `check` writes, and how it ends.
pub(crate) const CHECK_EXAMPLE: &str = "\
Written is a line for each FILE, its number of statements or why it is refused:
  people.nt: 3 statements
  other.nt: refused: Syntax line 2
Of N-Triples and N-Quads nothing is held but labels, so they may be of any size.

Examples:
  rdfkeep check --from ntriples people.nt other.nt
  rdfkeep check --from turtle --base http://example.org/ people.ttl

Exit status: 0 each document is sound, 1 one was refused, 2 the words or the base are wrong,
3 reading or writing failed, where no further file is read, 4 memory was wanting.";
