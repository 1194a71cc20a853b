//! Documents from their text.

ghost use Rattle.std.specs.Prelude.{◌≡◌, ◌↔◌, ◌+◌, ◌≤◌, [], List, length, IsTrue, IfOk, IfErr};
ghost use Rattle.std.specs.Prelude.{MatchResult};
ghost use Rattle.std.specs.List.{flat_map};
ghost use Rattle.asg_doc.specs.declared.documents.Document.{Document};
ghost use Rattle.asg_doc_reader.specs.DocumentParts.{command_part, objective_part, document_part};
ghost use Rattle.asg_doc_reader.specs.RefusedLine.{AllHaveText, IsRefusal, DocumentsHalt};
ghost use Rattle.asg_doc.specs.Text.{lines_of, texts_of};
ghost use Rattle.asg_model.specs.Limits.{longest_file};
ghost use Rattle.asg_grammar.specs.Lines.{ended, whole_lines, line_ends};
ghost use Rattle.asg_grammar.specs.Reading.{Reads, ReadsOrFails};

use crate::claim_reader::claim;
use crate::refusals::DocRefusal;
use crate::words::{command_of, objective_of};
use asg_doc::{Command, Document};
use asg_grammar::{Fault, Lines, Refusal, count_ends};
use asg_model::Objective;
use std::alloc::Global;

// The command of its line.
fn command(lines: &mut Lines) -> Result<Command, Refusal>
    ensures { Reads command_part lines.old lines.new result }
{
    lines.read(b"command ", command_of)
}

// The objective of its line.
fn objective(lines: &mut Lines) -> Result<Objective, Refusal>
    ensures { Reads objective_part lines.old lines.new result }
{
    lines.read(b"objective ", objective_of)
}

// A document.
fn document(alloc: Global, lines: &mut Lines) -> Result<Document, Fault>
    ensures { ReadsOrFails document_part lines.old lines.new result }
{
    lines.pass(b"assignment 1")?;
    let command = command(lines)?;
    let objective = objective(lines)?;
    let claim = claim(alloc, objective, lines)?;
    Ok(Document {
        command,
        objective,
        claim,
    })
}

// The documents of all lines that are left.
fn documents(alloc: Global, lines: &mut Lines) -> Result<Vec<Document>, Fault>
    ensures { MatchResult result
        (λ documents. AllHaveText documents.items
        × (lines.old ≡ flat_map lines_of documents.items) × (lines.new ≡ []))
        (λ fault. DocumentsHalt lines.old lines.new fault) }
{
    let mut documents = Vec::new(alloc);
    'lines: while !lines.is_empty() {
        documents.push(document(alloc, lines)?)?;
    }
    Ok(documents)
}

// Whether no bytes stand after the last LF.
fn is_ended(file: &[u8]) -> bool
    ensures { IsTrue result ↔ (file.now ≡ ended (whole_lines file.now)) }
{
    file.is_empty() || file[file.len() - 1] == b'\n'
}

// The number of the line after those of a file that were read.
fn next_line(file: &[u8], left: &Lines) -> u32
    requires size { length file.now ≤ longest_file }
    requires left { length left.now ≤ line_ends file.now }
    ensures { result + length left.now ≡ 1 + line_ends file.now }
{
    (count_ends(file) - left.len()) as u32 + 1
}

// The documents of a file, or why there are none.
fn read_lines(alloc: Global, file: &[u8]) -> Result<Vec<Document>, DocRefusal>
    requires { length file.now ≤ longest_file }
    ensures read { IfOk result
        (λ documents. AllHaveText documents.items × (file.now ≡ texts_of documents.items)) }
    ensures line { IfErr result (λ refusal. IsRefusal file.now refusal) }
{
    let mut lines = Lines::of(file);
    match documents(alloc, &mut lines) {
        Ok(documents) => {
            if is_ended(file) {
                Ok(documents)
            } else {
                Err(DocRefusal::Line(next_line(file, &lines)))
            }
        }
        Err(Fault::Refused) => Err(DocRefusal::Line(next_line(file, &lines))),
        Err(Fault::NoMemory) => Err(DocRefusal::NoMemory),
    }
}

/// The documents of which the file, at most 268,435,456 bytes, is the text, one after the other. An
/// empty file is the text of no document.
///
/// `Line` comes exactly where the file is the text of no list of documents. Its number is 1 plus
/// the number of LF in the longest prefix of the file that is also a prefix of the text of some
/// list of documents. `NoMemory` is want of memory: only the members that were read take some.
pub fn read(alloc: Global, bytes: &[u8]) -> Result<Vec<Document>, DocRefusal>
    requires { length bytes.now ≤ longest_file }
    // What is read is the text, each byte of it.
    ensures read { IfOk result
        (λ documents. AllHaveText documents.items × (bytes.now ≡ texts_of documents.items)) }
    // The text of documents reads as these and no others, unless memory runs out.
    ensures only { (documents : List Document) → AllHaveText documents
        → bytes.now ≡ texts_of documents
        → MatchResult result (λ found. found.items ≡ documents)
        (λ refusal. refusal ≡ DocRefusal.NoMemory) }
    // A refused file is no text, and the line is the first that can't stand there.
    ensures line { IfErr result (λ refusal. IsRefusal bytes.now refusal) }
{
    read_lines(alloc, bytes)
}
