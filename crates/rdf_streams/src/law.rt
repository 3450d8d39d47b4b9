//! Laws over the definitions alone: that a document has one conversion, and is the one that a session loads.
ghost use Rattle.rdf_streams.specs.Conversion.OneConversion.{CutOffBegin, FailedWritesLack, OneBeginsTheOther, OneConversion};
ghost use Rattle.rdf_streams.specs.DocumentLaws.{ChecksFindTheFault, ConversionsFindTheFault, ConvertsWhatIsLoaded, CountsWhatIsLoaded};

/// What [`crate::convert`] writes is given by the format, the base and the bytes that it is given to read. Two conversions that came to the end of
/// the document, or to its fault, wrote the same bytes and end alike, but for a line that is the reader's own choice. What one wrote that a failed
/// read or write or want of memory cut off is a beginning of these, a proper one where a write failed; and of any two the one is a beginning of the
/// other.
pub fn a_document_has_one_conversion()
    ensures one { OneConversion }
    ensures cut_off { CutOffBegin }
    ensures lack { FailedWritesLack }
    ensures beginnings { OneBeginsTheOther }
{
    rdf_lines::each_text_is_one_document();
    rdf_lines::what_is_fed_comes_first();
    rdf_turtle::one_meaning();
}

/// A text that is converted or checked in a format, against a base, is the document that a session loads: a whole conversion writes
/// the lines of that one's quads, in their order, a check counts these, and where either tells a fault of the document, a session
/// refuses it for the same one.
pub fn documents_are_those_that_a_session_loads()
    ensures converted { ConvertsWhatIsLoaded }
    ensures counted { CountsWhatIsLoaded }
    ensures unconverted { ConversionsFindTheFault }
    ensures uncounted { ChecksFindTheFault }
{}
