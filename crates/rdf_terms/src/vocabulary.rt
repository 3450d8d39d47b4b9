//! The IRIs that short forms stand for.
ghost use Rattle.std.specs.Prelude.{◌≡◌, false, true, IfOk};
ghost use Rattle.rdf_terms.specs.Iri.{has_forbidden, has_scheme};
ghost use Rattle.rdf_terms.specs.Literal as literal;
ghost use Rattle.rdf_terms.specs.Vocabulary as word;

use crate::fault::NoMemory;
use crate::iri::Iri;
use crate::shared::Shared;
use std::alloc::Global;

/// The IRIs of RDF and XML Schema that the short forms of Turtle and SPARQL stand for (Turtle 1.1,
/// sections 2.4, 2.5 and 2.8), each made once: a copy shares its text.
#[derive(Drop)]
pub struct Vocabulary {
    words: Shared<Words>,
}

// All of them, held at one place: letting the vocabulary go is then one call.
#[derive(Drop)]
struct Words {
    lists: Lists,
    datatypes: Datatypes,
}

// What `a` and lists stand for.
#[derive(Drop)]
struct Lists {
    rdf_type: Iri,
    rdf_first: Iri,
    rdf_rest: Iri,
    rdf_nil: Iri,
    ghost type_is: { rdf_type ≡ word.rdf_type },
    ghost first_is: { rdf_first ≡ word.rdf_first },
    ghost rest_is: { rdf_rest ≡ word.rdf_rest },
    ghost nil_is: { rdf_nil ≡ word.rdf_nil },
}

// The datatypes of short forms.
#[derive(Drop)]
struct Datatypes {
    xsd_string: Iri,
    xsd_boolean: Iri,
    numbers: Numbers,
    ghost string_is: { xsd_string ≡ literal.xsd_string },
    ghost boolean_is: { xsd_boolean ≡ word.xsd_boolean },
}

// The datatypes of numbers.
#[derive(Drop)]
struct Numbers {
    xsd_integer: Iri,
    xsd_decimal: Iri,
    xsd_double: Iri,
    ghost integer_is: { xsd_integer ≡ word.xsd_integer },
    ghost decimal_is: { xsd_decimal ≡ word.xsd_decimal },
    ghost double_is: { xsd_double ≡ word.xsd_double },
}

// Two IRIs of words that are known to be some.
fn known_pair(alloc: Global, first: &str, second: &str) -> Result<(Iri, Iri), NoMemory>
    requires first_scheme { has_scheme first.now ≡ true }
    requires first_allowed { has_forbidden first.now ≡ false }
    requires second_scheme { has_scheme second.now ≡ true }
    requires second_allowed { has_forbidden second.now ≡ false }
    ensures { IfOk result (λ t. t ≡ (first.now, second.now)) }
{
    let first = Iri::known(alloc, first)?;
    let second = Iri::known(alloc, second)?;
    Ok((first, second))
}

impl Lists {
    fn new(alloc: Global) -> Result<Lists, NoMemory> {
        let (rdf_type, rdf_nil) = known_pair(
            alloc,
            "http://www.w3.org/1999/02/22-rdf-syntax-ns#type",
            "http://www.w3.org/1999/02/22-rdf-syntax-ns#nil",
        )?;
        let (rdf_first, rdf_rest) = known_pair(
            alloc,
            "http://www.w3.org/1999/02/22-rdf-syntax-ns#first",
            "http://www.w3.org/1999/02/22-rdf-syntax-ns#rest",
        )?;
        Ok(Lists {
            rdf_type,
            rdf_first,
            rdf_rest,
            rdf_nil,
        })
    }
}

impl Datatypes {
    fn new(alloc: Global) -> Result<Datatypes, NoMemory> {
        let (xsd_string, xsd_boolean) = known_pair(
            alloc,
            "http://www.w3.org/2001/XMLSchema#string",
            "http://www.w3.org/2001/XMLSchema#boolean",
        )?;
        let numbers = Numbers::new(alloc)?;
        Ok(Datatypes {
            xsd_string,
            xsd_boolean,
            numbers,
        })
    }
}

impl Numbers {
    fn new(alloc: Global) -> Result<Numbers, NoMemory> {
        let xsd_integer = Iri::known(alloc, "http://www.w3.org/2001/XMLSchema#integer")?;
        let (xsd_decimal, xsd_double) = known_pair(
            alloc,
            "http://www.w3.org/2001/XMLSchema#decimal",
            "http://www.w3.org/2001/XMLSchema#double",
        )?;
        Ok(Numbers {
            xsd_integer,
            xsd_decimal,
            xsd_double,
        })
    }
}

impl Vocabulary {
    /// All of these IRIs.
    ///
    /// # Errors
    /// [`NoMemory`] where memory is wanting.
    pub fn new(alloc: Global) -> Result<Vocabulary, NoMemory> {
        let lists = Lists::new(alloc)?;
        let datatypes = Datatypes::new(alloc)?;
        let words = Shared::new(alloc, Words { lists, datatypes })?;
        Ok(Vocabulary { words })
    }

    /// The same IRIs, shared with this one.
    ///
    /// # Errors
    /// [`NoMemory`] where one more share can't be counted.
    pub fn copy(&self) -> Result<Vocabulary, NoMemory> {
        let words = self.words.copy()?;
        Ok(Vocabulary { words })
    }

    /// What `a` stands for.
    pub fn rdf_type(&self) -> &Iri
        ensures { result.now ≡ word.rdf_type }
    {
        &self.words.as_ref().lists.rdf_type
    }

    /// From a cell of a list to its element.
    pub fn rdf_first(&self) -> &Iri
        ensures { result.now ≡ word.rdf_first }
    {
        &self.words.as_ref().lists.rdf_first
    }

    /// From a cell of a list to the next.
    pub fn rdf_rest(&self) -> &Iri
        ensures { result.now ≡ word.rdf_rest }
    {
        &self.words.as_ref().lists.rdf_rest
    }

    /// The empty list, `()`.
    pub fn rdf_nil(&self) -> &Iri
        ensures { result.now ≡ word.rdf_nil }
    {
        &self.words.as_ref().lists.rdf_nil
    }

    /// The datatype of plain strings.
    pub fn xsd_string(&self) -> &Iri
        ensures { result.now ≡ literal.xsd_string }
    {
        &self.words.as_ref().datatypes.xsd_string
    }

    /// The datatype of numbers without a dot.
    pub fn xsd_integer(&self) -> &Iri
        ensures { result.now ≡ word.xsd_integer }
    {
        &self.words.as_ref().datatypes.numbers.xsd_integer
    }

    /// The datatype of numbers with a dot and no exponent.
    pub fn xsd_decimal(&self) -> &Iri
        ensures { result.now ≡ word.xsd_decimal }
    {
        &self.words.as_ref().datatypes.numbers.xsd_decimal
    }

    /// The datatype of numbers with an exponent.
    pub fn xsd_double(&self) -> &Iri
        ensures { result.now ≡ word.xsd_double }
    {
        &self.words.as_ref().datatypes.numbers.xsd_double
    }

    /// The datatype of `true` and `false`.
    pub fn xsd_boolean(&self) -> &Iri
        ensures { result.now ≡ word.xsd_boolean }
    {
        &self.words.as_ref().datatypes.xsd_boolean
    }
}
