//! Bytes with the page over which they are written.

ghost use Rattle.std.specs.Prelude.{◌≡◌, ◌≤◌, IfOk, OnOk, OnErr};
ghost use Rattle.asg_doc.specs.PageState.{blank};
ghost use Rattle.asg_io.specs.Shelf.{Rose};
ghost use Rattle.asg_io.specs.Sink.{Puts, PutsPrefix};

use asg_doc::{Page, finish, line};
use asg_io::{PutFault, Sink};
use asg_model::NoMemory;
use std::alloc::Global;
use std::marker::Model;

/// Bytes, with a blank page.
#[derive(Drop)]
pub struct Pages {
    bytes: Vec<u8>,
    page: Page,
}

impl Model for Pages {
    ghost use Rattle.std.specs.Prelude.{◌≡◌, ℕ, List};
    ghost use Rattle.asg_doc.specs.PageState.{blank};

    ghost Value = { List ℕ };

    ghost view = { λ pages. pages.bytes.items };

    ghost invariant = { λ pages. pages.page ≡ blank };
}

impl Pages {
    /// The bytes with a page. The error is want of memory.
    pub fn of(alloc: Global, bytes: Vec<u8>) -> Result<Pages, NoMemory>
        ensures { IfOk result (λ pages. pages ≡ bytes.items) }
    {
        let page = Page::make(alloc)?;
        Ok(Pages { bytes, page })
    }

    /// Puts the bytes whole, or after a fault of the sink a prefix of them. It takes no memory.
    pub fn send<K: Sink>(self, out: &mut K) -> Result<(), PutFault>
        ensures whole { OnOk result (Puts (K.written out.old) (K.written out.new) self) }
        ensures prefix { OnErr result (PutsPrefix (K.written out.old) (K.written out.new) self) }
        ensures cause { OnErr result (Rose (K.faults out.old) (K.faults out.new)) }
        ensures never_falls { K.faults out.old ≤ K.faults out.new }
    {
        let Pages { bytes, mut page } = self;
        send_bytes(&bytes, &mut page, out)
    }
}

// Puts bytes over a blank page.
fn send_bytes<K: Sink>(bytes: &[u8], page: &mut Page, out: &mut K) -> Result<(), PutFault>
    requires { page.old ≡ blank }
    ensures whole { OnOk result (Puts (K.written out.old) (K.written out.new) bytes.now) }
    ensures prefix { OnErr result (PutsPrefix (K.written out.old) (K.written out.new) bytes.now) }
    ensures cause { OnErr result (Rose (K.faults out.old) (K.faults out.new)) }
    ensures never_falls { K.faults out.old ≤ K.faults out.new }
{
    line(bytes, page, out)?;
    finish(page, out)
}
