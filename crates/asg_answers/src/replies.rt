//! What is answered, and how its text is put.

ghost use Rattle.std.specs.Prelude.{◌≤◌, IfOk, OnOk, OnErr, string_bytes};
ghost use Rattle.asg_doc.specs.HasText.{HasText};
ghost use Rattle.asg_doc.specs.Text.{text_of};
ghost use Rattle.asg_io.specs.Shelf.{Rose};
ghost use Rattle.asg_io.specs.Sink.{Puts, PutsPrefix};
ghost use Rattle.asg_answers.specs.Replies.{IsReply, bytes_of};

use crate::pages::Pages;
use crate::sheets::Sheet;
use crate::status::Status;
use asg_brief::BriefLine;
use asg_doc::Document;
use asg_io::{PutFault, Sink};
use asg_model::NoMemory;
use std::alloc::Global;

/// What is to be written.
#[derive(Drop)]
pub enum Text {
    /// A line, with its end.
    Line(String),
    /// A document.
    Sheet(Sheet),
    /// The bytes of a file.
    File(Pages),
    /// A brief line.
    Brief(BriefLine),
}

/// What a run answers: its status, and what is to be written. All memory for it is taken.
#[derive(Drop)]
pub struct Reply {
    /// How the run ends.
    pub status: Status,
    /// What is to be written.
    pub text: Text,
}

impl Reply {
    /// The reply of a line. The error is want of memory.
    pub fn line(alloc: Global, status: Status, line: &str) -> Result<Reply, NoMemory>
        ensures { IfOk result (λ reply. IsReply reply status line.now) }
    {
        Ok(Reply::made(status, String::from_str(alloc, line)?))
    }

    /// The reply of a line that is made.
    pub fn made(status: Status, line: String) -> Reply
        ensures { IsReply result status (string_bytes line) }
    {
        Reply {
            status,
            text: Text::Line(line),
        }
    }

    /// The reply of a brief line. It takes no memory.
    pub fn brief(status: Status, line: BriefLine) -> Reply
        ensures { IsReply result status line }
    {
        Reply {
            status,
            text: Text::Brief(line),
        }
    }

    /// The reply of a document that has a text. The error is want of memory.
    pub fn sheet(alloc: Global, status: Status, document: Document) -> Result<Reply, NoMemory>
        requires { HasText document }
        ensures { IfOk result (λ reply. IsReply reply status (text_of document)) }
    {
        let sheet = Sheet::of(alloc, document)?;
        Ok(Reply {
            status,
            text: Text::Sheet(sheet),
        })
    }
    /// The reply of the bytes of a file. The error is want of memory.
    pub fn file(alloc: Global, status: Status, bytes: Vec<u8>) -> Result<Reply, NoMemory>
        ensures { IfOk result (λ reply. IsReply reply status bytes.items) }
    {
        let pages = Pages::of(alloc, bytes)?;
        Ok(Reply {
            status,
            text: Text::File(pages),
        })
    }
}

/// Puts a text whole, or after a fault of the sink a prefix of it. It takes no memory.
pub fn put_text<K: Sink>(text: Text, out: &mut K) -> Result<(), PutFault>
    ensures whole { OnOk result (Puts (K.written out.old) (K.written out.new) (bytes_of text)) }
    ensures prefix { OnErr result
        (PutsPrefix (K.written out.old) (K.written out.new) (bytes_of text)) }
    ensures cause { OnErr result (Rose (K.faults out.old) (K.faults out.new)) }
    ensures never_falls { K.faults out.old ≤ K.faults out.new }
{
    match text {
        Text::Line(line) => out.put(line.as_bytes()),
        Text::Sheet(sheet) => sheet.send(out),
        Text::File(pages) => pages.send(out),
        Text::Brief(line) => out.put(line.as_bytes()),
    }
}
