//! Texts of documents, read and written.

ghost use Rattle.asg_doc_reader.specs.RefusedLine.{AllHaveText};

use asg_doc::{Document, Page, finish, write};
use asg_doc_reader::read;
use asg_io::MemorySink;
use std::alloc::{AllocError, Global};
use std::test::Fail;

// Texts of each form, with numbers at their bounds: most of their choices and proofs are those of
// no instance.
static TEXTS: [&'static [u8]; 22] = [
    b"assignment 1\ncommand solve\nobjective bottleneck\nstatus best\nvalue 2\n\
      cells 3\n1 2\n2 1\n3 3\nproof below 3\nend\n",
    b"assignment 1\ncommand edit\nobjective sum\nstatus none\nhall 1 3\nend\n",
    b"assignment 1\ncommand solve\nobjective sum\nstatus best\nvalue 5\ncells 3\n1 2\n2 1\n3 3\n\
      proof phases 3\n\
      steps 1000000001\nenters 0 1 1\nleaves 1 1 1\n\
      steps 1000000000 2\nenters 1 0 2\nleaves 2 1 2\n\
      steps 1000000002\nenters 1 1 0\nleaves 1 1 1\nend\n",
    b"assignment 1\ncommand solve\nobjective time-cost\nstatus best\nvalue -7:12\ncells 1\n4 5\n\
      proof phases 1\n\
      steps 999999993:12 0:340282366920938463463374607431768211455 1:7\n\
      enters 0\nleaves 4294967295\nend\n",
    b"assignment 1\ncommand solve\nobjective pair\nstatus best\nvalue 3:-4\ncells 1\n1 1\n\
      proof phases 0\nend\n",
    b"assignment 1\ncommand solve\nobjective capped=5\nstatus best\nvalue 5\ncells 1\n1 1\n\
      proof phases 0\nend\n",
    b"assignment 1\ncommand solve\nobjective capped=1000000000000\nstatus none\nhall 2\nend\n",
    b"assignment 1\ncommand solve\nobjective sum-max\nstatus none\nhall 1 2\nend\n",
    b"assignment 1\ncommand solve\nobjective bottleneck\nstatus best\nvalue 2\ncells 1\n1 1\n\
      proof phases 0\nend\n",
    b"assignment 1\ncommand solve\nobjective balanced\nstatus best\nvalue 1\n\
      cells 3\n1 2\n2 1\n3 3\nproof windows 3\n\
      window 0 1 3\nwindow 2 2 1\nwindow 3 5 1 2 3\nend\n",
    b"assignment 1\ncommand solve\nobjective balanced\nstatus best\nvalue 0\ncells 1\n1 1\n\
      proof windows 0\nend\n",
    b"assignment 1\ncommand solve\nobjective bottleneck\nstatus best\nvalue 2\ncells 1\n1 1\n\
      proof windows 1\nwindow 5 -5 0\nend\n",
    b"assignment 1\ncommand solve\nobjective balanced\nstatus best\nvalue 2\ncells 1\n1 1\n\
      proof windows 1\n\
      window -9223372036854775808 9223372036854775807 4294967295 4294967295\nend\n",
    b"assignment 1\ncommand solve\nobjective lex\nstatus best\nvalue 2 2 1\ncells 3\n1 2\n2 1\n\
      3 3\nproof levels 2\nperm 2 1 3\nlevel 2 2 2\nsteps 1\nenters 0 0 1\nleaves 1 0 1\nsteps 1\n\
      enters 1 1 0\nleaves 1 1 1\nlevel 1 1 1\nsteps 1\nenters 0 1 1\nleaves 1 1 1\nend\n",
    b"assignment 1\ncommand solve\nobjective lex\nstatus best\n\
      value 9223372036854775807 -9223372036854775808\ncells 1\n1 1\nproof levels 1\n\
      perm 4294967295 1\nlevel -9223372036854775808 4294967295 0\nend\n",
    b"assignment 1\ncommand rank\nobjective sum\nstatus ranked\ncount 2\n\
      answers 2\nanswer 4\ncells 2\n1 1\n2 2\nanswer 6\ncells 2\n1 2\n2 1\nproof tree 5\n\
      node 0 0 answered 1 2\nsteps 1000000001\nenters 0 1\nleaves 1 1\n\
      steps 1000000003\nenters 1 0\nleaves 1 1\n\
      node 1 1 answered 2 1\nsteps 1 1\nenters 0 1\nleaves 2 1\n\
      node 1 2 empty 1 2\nnode 2 1 open 0\nnode 2 2 open 0\nend\n",
    b"assignment 1\ncommand solve\nobjective time-cost\nstatus ranked\ncount 4000000\nanswers 1\n\
      answer -7:12\ncells 1\n4 5\nproof tree 2\n\
      node 4294967295 4294967295 answered 4294967295 1\n\
      steps 999999993:12\nenters 0\nleaves 4294967295\n\
      node 0 0 answered 0 0\nend\n",
    b"assignment 1\ncommand rank\nobjective lex\nstatus ranked\ncount 1\nanswers 2\n\
      answer 2 -1\ncells 1\n1 1\nanswer 2\ncells 1\n1 1\nproof tree 1\n\
      node 0 0 empty 4294967295 4294967295\nend\n",
    b"assignment 1\ncommand solve\nobjective bottleneck-max\nstatus none\n\
      hall 0 10 99 100 4294967295\nend\n",
    b"assignment 1\ncommand solve\nobjective bottleneck-max\nstatus best\n\
      value -170141183460469231731687303715884105728\ncells 5\n4294967295 0\n1 1\n2 4294967295\n\
      3 3\n5 2\nproof below 0 9\nend\n",
    b"assignment 1\ncommand solve\nobjective sum\nstatus none\nhall 1\nend\n\
      assignment 1\ncommand edit\nobjective sum\nstatus none\nhall 2\nend\n",
    b"",
];

// These, for a caller that needn't know them.
fn texts() -> &'static [&'static [u8]] {
    &TEXTS
}

// A length that no text here reaches.
const LONGEST_TEXT: usize = 1_000;

// Whether documents are written over a page, which is then put.
fn is_written(documents: &[Document], page: &mut Page, sink: &mut MemorySink) -> bool
    requires { AllHaveText documents.now }
{
    'documents: for document in documents {
        if write(document, page, sink).is_err() {
            return false;
        }
    }
    finish(page, sink).is_ok()
}

// Whether exactly this text is written of the documents in a sink.
fn is_text_in(
    alloc: Global,
    documents: &[Document],
    text: &[u8],
    sink: &mut MemorySink,
) -> Result<bool, AllocError>
    requires { AllHaveText documents.now }
{
    let mut page = Page::make(alloc)?;
    let is_so = is_written(documents, &mut page, sink) && sink.bytes() == text;
    drop(page);
    Ok(is_so)
}

// Whether exactly this text is written of them in memory.
fn is_text_of(alloc: Global, documents: &[Document], text: &[u8]) -> Result<bool, AllocError>
    requires { AllHaveText documents.now }
{
    let mut sink = MemorySink::with(alloc, 1_000, Vec::new(alloc))?;
    let is_text = is_text_in(alloc, documents, text, &mut sink);
    drop(sink);
    is_text
}

// Whether the text is read, and exactly it is written of what it is read as.
fn is_rewritten(alloc: Global, text: &[u8]) -> Result<bool, AllocError> {
    if text.len() > LONGEST_TEXT {
        return Ok(false);
    }
    match read(alloc, text) {
        Ok(documents) => {
            let is_text = is_text_of(alloc, &documents, text);
            drop(documents);
            is_text
        }
        Err(_) => Ok(false),
    }
}

#[test]
fn texts_are_written_as_they_were_read(rt: HostRuntime) -> Result<(), Fail> {
    for text in texts() {
        assert!(rt; is_rewritten(rt.alloc(), text)?, "{text:?}");
    }
    Ok(())
}
