//! Documents with the page over which they are written.

ghost use Rattle.std.specs.Prelude.{◌≡◌, ◌≤◌, IfOk, OnOk, OnErr};
ghost use Rattle.asg_doc.specs.HasText.{HasText};
ghost use Rattle.asg_doc.specs.Text.{text_of};
ghost use Rattle.asg_io.specs.Shelf.{Rose};
ghost use Rattle.asg_io.specs.Sink.{Puts, PutsPrefix};

use asg_doc::{Document, Page, send};
use asg_io::{PutFault, Sink};
use asg_model::NoMemory;
use std::alloc::Global;
use std::marker::Model;

/// A document that has a text, with a blank page.
#[derive(Drop)]
pub struct Sheet {
    document: Document,
    page: Page,
}

impl Model for Sheet {
    ghost use Rattle.std.specs.Prelude.{◌≡◌};
    ghost use Rattle.asg_doc.specs.declared.documents.Document.{Document};
    ghost use Rattle.asg_doc.specs.HasText.{HasText};
    ghost use Rattle.asg_doc.specs.PageState.{blank};

    ghost Value = { Document };

    ghost view = { λ sheet. sheet.document };

    ghost invariant = { λ sheet. HasText sheet.document × (sheet.page ≡ blank) };
}

impl Sheet {
    /// The document with a page. The error is want of memory.
    pub fn of(alloc: Global, document: Document) -> Result<Sheet, NoMemory>
        requires { HasText document }
        ensures { IfOk result (λ sheet. sheet ≡ document) }
    {
        let page = Page::make(alloc)?;
        Ok(Sheet { document, page })
    }

    /// Puts the text of the document whole, or after a fault of the sink a prefix of it. It takes
    /// no memory.
    pub fn send<K: Sink>(self, out: &mut K) -> Result<(), PutFault>
        ensures whole { OnOk result (Puts (K.written out.old) (K.written out.new) (text_of self)) }
        ensures prefix { OnErr result
            (PutsPrefix (K.written out.old) (K.written out.new) (text_of self)) }
        ensures cause { OnErr result (Rose (K.faults out.old) (K.faults out.new)) }
        ensures never_falls { K.faults out.old ≤ K.faults out.new }
    {
        let Sheet { document, mut page } = self;
        let sent = send(&document, &mut page, out);
        drop(document);
        drop(page);
        sent
    }
}
