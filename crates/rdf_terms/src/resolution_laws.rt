//! What holds of components, of paths and of resolution.
ghost use Rattle.rdf_terms.specs.ResolutionExamples.{NormalExamples, AbnormalExamples, OtherBases};
ghost use Rattle.rdf_terms.specs.ResolutionLaws.{EachTextHasComponents, ComponentsAreUnique, BaseIsUnique, EachReferenceMeans, OneReferenceMeaning, SegmentsAreThePath, NoDotsAreLeft, OthersAreKept, DotsAreRemoved, DotsBeforeSlashes};

/// Each text has components, and no others; a base has one scheme and one list of components.
pub fn components_are_unique()
    ensures there { EachTextHasComponents }
    ensures unique { ComponentsAreUnique }
    ensures base { BaseIsUnique }
{}

/// A reference means one text against a base with a scheme.
pub fn one_reference_meaning()
    ensures there { EachReferenceMeans }
    ensures unique { OneReferenceMeaning }
{}

/// Each example of resolution of the standard comes out as it says, the normal and the abnormal ones
/// (RFC 3986, section 5.4), and so do bases with an empty path, or without an authority (section 5.2).
pub fn reference_examples_hold()
    ensures normal { NormalExamples }
    ensures abnormal { AbnormalExamples }
    ensures other_bases { OtherBases }
{}

/// The segments of a path are the path.
pub fn segments_are_the_path()
    ensures { SegmentsAreThePath }
{}

/// A path loses all its dot segments, one that has none stays as it is, and so go the standard's
/// two examples.
pub fn dots_are_removed()
    ensures none_left { NoDotsAreLeft }
    ensures others_kept { OthersAreKept }
    ensures examples { DotsAreRemoved }
{}

/// The text of a result decides, also where its components would be read otherwise.
pub fn dots_before_slashes()
    ensures { DotsBeforeSlashes }
{}
