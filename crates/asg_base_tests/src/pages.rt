//! Lines and documents over a page, whose sink fails.

ghost use Rattle.std.specs.Prelude.{◌≡◌, IfOk};
ghost use Rattle.asg_doc.specs.HasText.{HasText};
ghost use Rattle.asg_doc.specs.PageState.{blank};

use asg_doc::{Claim, Command, Document, Page, finish, line, send, write};
use asg_io::{MemorySink, PutFault};
use asg_model::Objective;
use asg_proof::Ids;
use std::alloc::{AllocError, Global};
use std::test::Fail;

// A sink with this room, of which one put fails.
fn failing_sink(alloc: Global, room: u32, fails: (u32, u32)) -> Result<MemorySink, AllocError> {
    MemorySink::with(alloc, room, vec![in alloc; fails]?)
}

// Whether a line is taken, and so many bytes are put by then.
fn is_put(text: &[u8], page: &mut Page, sink: &mut MemorySink, put: usize) -> bool {
    line(text, page, sink).is_ok() && sink.bytes().len() == put
}

// Whether two lines of many bytes are put by pages, the last one of which fails.
fn are_pages_put(text: &[u8], page: &mut Page, sink: &mut MemorySink) -> bool {
    is_put(text, page, sink, 65536)
        && is_put(text, page, sink, 131072)
        && finish(page, sink).is_err()
        && sink.bytes().len() == 131077
}

// Whether such lines are put so in a sink.
fn puts_pages_in(alloc: Global, sink: &mut MemorySink) -> Result<bool, AllocError> {
    let text = vec![in alloc; 7u8; 70000]?;
    let mut page = Page::make(alloc)?;
    let are_pages_put = are_pages_put(&text, &mut page, sink);
    drop(page);
    Ok(are_pages_put)
}

// Whether they are in one that fails.
fn puts_pages(alloc: Global) -> Result<bool, AllocError> {
    let mut sink = failing_sink(alloc, 200000, (3, 5))?;
    let puts_pages = puts_pages_in(alloc, &mut sink);
    drop(sink);
    puts_pages
}

#[test]
fn pages_are_put_whole(rt: HostRuntime) -> Result<(), Fail> {
    assert!(rt; puts_pages(rt.alloc())?);
    Ok(())
}

// A document without a valid choice.
fn nothing(alloc: Global) -> Result<Document, AllocError>
    ensures { IfOk result HasText }
{
    Ok(Document {
        command: Command::Solve,
        objective: Objective::BottleneckMax,
        claim: Claim::Nothing {
            rows: Ids::from_vec(Vec::from_slice(alloc, &[1])?),
        },
    })
}

// Whether a page breaks at a document, and refuses a line, a document and its end then.
fn breaks(document: &Document, page: &mut Page, sink: &mut MemorySink) -> bool
    requires text { HasText document.now }
    requires blank { page.old ≡ blank }
{
    send(document, page, sink) == Err(PutFault)
        && line(b" 1", page, sink) == Err(PutFault)
        && write(document, page, sink) == Err(PutFault)
        && finish(page, sink) == Err(PutFault)
}

// Whether it breaks at a sink's first put, and writes nothing more.
fn breaks_in(alloc: Global, document: &Document, sink: &mut MemorySink) -> Result<bool, AllocError>
    requires { HasText document.now }
{
    let mut page = Page::make(alloc)?;
    let is_so = breaks(document, &mut page, sink) && sink.bytes() == b"assignment".as_slice();
    drop(page);
    Ok(is_so)
}

// Whether it does at that of a sink that fails.
fn breaks_for_good(alloc: Global, document: &Document) -> Result<bool, AllocError>
    requires { HasText document.now }
{
    let mut sink = failing_sink(alloc, 1000, (1, 10))?;
    let breaks = breaks_in(alloc, document, &mut sink);
    drop(sink);
    breaks
}

// Whether the document without a valid choice breaks it so.
fn nothing_breaks(alloc: Global) -> Result<bool, AllocError> {
    let document = nothing(alloc)?;
    let breaks = breaks_for_good(alloc, &document);
    drop(document);
    breaks
}

#[test]
fn a_broken_page_writes_nothing(rt: HostRuntime) -> Result<(), Fail> {
    assert!(rt; nothing_breaks(rt.alloc())?);
    Ok(())
}
