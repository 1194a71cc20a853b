//! The program: the top call.

ghost use Rattle.std.specs.Prelude.{◌≡◌, ◌++◌, ◌⊎◌, ℕ, List, map, string_bytes};
ghost use Rattle.asg_io.specs.Shelf.{Rose};
ghost use Rattle.asg_io.specs.Sink.{Puts, PutsPrefix};
ghost use Rattle.asg_promises.specs.Due.{Due, DueInPart, Tells};
ghost use Rattle.asg_app.specs.Ends.{WritesInPart};
ghost use Rattle.asg_app.specs.Fetches.{AsksOf, AsksInTurn};
ghost use Rattle.asg_promises.specs.Requests.{files_of, is_streamed, asked_of};
ghost use Rattle.asg_answers.specs.Statuses.{IsAnswer, HasRead};

use crate::answers::answer;
use crate::files::{fetch_asked, unread_status};
use asg_answers::Status;
use asg_io::{Shelf, Sink};
use asg_promises::laws::{answer_law, due_law};
use std::alloc::Global;

/// Runs the program: reads the words after the program's name, fetches the files that they name
/// from the shelf, and writes what is due to the sink. It answers how the run ended.
///
/// The status is `Done` where a document with a best choice or a ranking was written, or those of a
/// script, or in brief a line in place of each, or the text of an instance that was made, or where
/// each document that was to be checked certifies, and `No` where one doesn't; `Nothing` where a
/// document, or in brief a line, says that no choice is valid; `Usage` where the words ask for
/// nothing that the program does; `TooLong` where one of the files is longer than 268,435,456
/// bytes; `Instance` where the instance's file is refused, by its text, by the options or by a cost
/// that the objective doesn't take, is too large to be solved, with too many different costs for
/// `balanced` or too many rows for `lex`, or where so many of its choices are too much to rank;
/// `Script` where the script's file is refused, by its text or by an edit; `Document` where the
/// answer's file isn't the text of as many documents as are due; `ReadFault` where the shelf had a
/// fault; `WriteFault` where the sink had one; and `NoMemory` where memory was wanting.
pub fn run<F: Shelf, K: Sink>(alloc: Global, words: &[String], shelf: &mut F, out: &mut K) -> Status
    // With the status of an answer, the text that is due with it was written.
    ensures answered { IsAnswer result → (text : List ℕ)
        × Due (map string_bytes words.now) (F.told shelf.old) result text
        × Puts (K.written out.old) (K.written out.new) text }

    // A fault of the sink stops the writing: a prefix of a text that is due was written, or of a
    // request to edit that is due for the first lines of its script.
    ensures write_fault { result ≡ Status.WriteFault → (status : Status) × (text : List ℕ)
        × DueInPart (map string_bytes words.now) (F.told shelf.old) status text
        × PutsPrefix (K.written out.old) (K.written out.new) text }
    ensures write_fault_cause { result ≡ Status.WriteFault →
        Rose (K.faults out.old) (K.faults out.new) }

    // After a fault of the shelf nothing was written.
    ensures read_fault { result ≡ Status.ReadFault → K.written out.new ≡ K.written out.old }
    ensures read_fault_cause { result ≡ Status.ReadFault →
        Rose (F.faults shelf.old) (F.faults shelf.new) }

    // Where memory is wanting nothing was written, or by a command that writes as it goes a prefix
    // of what is due, or due for the first lines of a script.
    ensures no_memory { result ≡ Status.NoMemory →
        WritesInPart (is_streamed (asked_of (map string_bytes words.now)))
        (DueInPart (map string_bytes words.now) (F.told shelf.old))
        (K.written out.old) (K.written out.new) }

    // The files that the words name are asked for, in order, and nothing else; each only after the
    // ones before it were given.
    ensures asked { AsksOf (F.asked shelf.old) (F.asked shelf.new)
        (files_of (asked_of (map string_bytes words.now))) }
    ensures asked_all { HasRead result →
        F.asked shelf.new ≡ F.asked shelf.old ++ files_of (asked_of (map string_bytes words.now)) }
    ensures in_turn { AsksInTurn F.told F.asked F.faults shelf.old shelf.new
        (files_of (asked_of (map string_bytes words.now))) result }

    // Where the contents are told and no fault comes, what is due is answered, unless memory is
    // wanting.
    ensures complete { Tells (map string_bytes words.now) (F.told shelf.old) →
        (status : Status) (text : List ℕ) →
        Due (map string_bytes words.now) (F.told shelf.old) status text →
        ¬ Rose (F.faults shelf.old) (F.faults shelf.new) →
        ¬ Rose (K.faults out.old) (K.faults out.new) →
        (result ≡ status) ⊎ (result ≡ Status.NoMemory) }
{
    due_law();
    answer_law();
    match fetch_asked(alloc, words, shelf) {
        Ok(mut asked) => answer(alloc, &mut asked, out),
        Err(fault) => unread_status(fault),
    }
}
