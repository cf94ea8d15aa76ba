//! Laws of the grammar. Each function has an empty body, and its contract is a law.
ghost use Rattle.yaml_definitions.specs.grammar.Laws.{ReadingsGoOn, DocumentsUnmarked, OneText, ReadingsAreDocuments, ReadingsStay};

/// No reading of a production ends before its start.
pub fn readings_go_on()
    ensures { ReadingsGoOn }
{}

/// No line of a bare document begins with a document mark.
pub fn documents_unmarked()
    ensures { DocumentsUnmarked }
{}

/// Bytes are one text at most.
pub fn one_text()
    ensures { OneText }
{}

/// The events of every reading are those of documents: they are well nested, a tag that is written out is a tag, a name is of anchor characters, and a text is UTF-8.
pub fn readings_are_documents()
    ensures { ReadingsAreDocuments }
{}

/// A reading stays one where more collections may be open, and in a wider profile.
pub fn readings_stay()
    ensures { ReadingsStay }
{}
