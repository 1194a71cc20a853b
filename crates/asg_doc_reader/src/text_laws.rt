//! Laws of the texts of documents.

ghost use Rattle.std.specs.Prelude.{◌≡◌, ◌+◌, ℕ, List, [], ◌∷◌, ◌++◌, Some, take};
ghost use Rattle.asg_io.specs.Sink.{Puts};
ghost use Rattle.asg_doc.specs.declared.documents.Document.{Document};
ghost use Rattle.asg_doc.specs.HasText.{HasText};
ghost use Rattle.asg_doc_reader.specs.RefusedLine.{AllHaveText, IsRefusedLine, IsLongestBegun};
ghost use Rattle.asg_doc.specs.Text.{text_of, texts_of};
ghost use Rattle.asg_grammar.specs.Lines.{line_ends};

/// The unique-reading law: a text is the text of one list of documents, and no document's text
/// begins with another's.
pub fn unique_reading()
    ensures lists { (documents others : List Document) → AllHaveText documents → AllHaveText others
        → texts_of documents ≡ texts_of others → documents ≡ others }
    ensures no_prefix { (document other : Document) (rest rest_of_other : List ℕ)
        → HasText document → HasText other
        → text_of document ++ rest ≡ text_of other ++ rest_of_other
        → (document ≡ other) × (rest ≡ rest_of_other) }
{}

/// The round-trip law: where a document is written behind the text of documents, all is their text
/// and its own, which `read` gives back.
pub fn round_trip()
    ensures { (documents : List Document) (document : Document) (written : List ℕ)
        → AllHaveText documents → HasText document
        → Puts (Some (texts_of documents)) (Some written) (text_of document)
        → AllHaveText (documents ++ document ∷ [])
        × (written ≡ texts_of (documents ++ document ∷ [])) }
{}

/// The refused line of a file is one, and is 1 plus the number of LF in the longest prefix of the
/// file that begins a text.
pub fn refused_line()
    ensures one { (file : List ℕ) (n other : ℕ)
        → IsRefusedLine file n → IsRefusedLine file other → n ≡ other }
    ensures longest { (file : List ℕ) (n count : ℕ)
        → IsRefusedLine file n → IsLongestBegun file count → n ≡ 1 + line_ends (take count file) }
{}
