//! The text of `--help`.
use cany_check::status::{BROKEN, OPEN};
use cany_command::MOST_TEXT_BYTES;
use cany_command::status::{
    DONE, NO_MEMORY, OTHER_WORDS, READ_FAULT, REFUSED, TOO_LONG, WRITE_FAULT,
};
use cany_crew::status::HELD;
use std::alloc::{AllocError, Global};

/// What the program is for, its arguments, the keys of a scenario and the exit statuses.
pub(crate) fn help(alloc: Global) -> Result<String, AllocError> {
    format!(in alloc;
        "\
Runs scenarios of reliable broadcast on one CAN bus.

usage: canely replay < SCENARIO > REPORT
       canely check < SCENARIO > VERDICT
       canely run < SCENARIO > REPORT
       canely storm NUMBER > SUMMARY
       canely replica < SCENARIO > TABLES
       canely media [FAULT ..] < SCENARIO > REPORT
       canely tail < SCENARIO > TAIL
       canely watch NODE < SCENARIO > LOG
       canely --help
       canely --version

replay reads a scenario, runs it by its own journal or, where it has none, by the round robin
journal, and writes the report of the run.

check runs a scenario as replay does, and writes what became of the promise in this run. It tells
whether each part held, with a witness if it did not. It tells which nodes have each message and
each failure sign, and which entries of the scenario did nothing.

run reads a scenario that has no journal, runs it by a thread for each node and one for the bus,
and writes the report of the run, with the journal that the threads made.

storm generates a scenario from the number, which has 1 to 10 digits and is at most {},
runs it by the round robin journal, and writes the summary of the run.

replica runs a scenario as replay does, and writes the table of each node. A payload of a tot
message is 01 KEY VALUE, 02 KEY or 03 KEY BYTE BYTE. By it a key gets a value, loses it, or gets the
second byte if it has exactly the first.

media runs a scenario as replay does, but over two lines, 0 and 1. A FAULT is LINE:FROM-TO:down or
LINE:FROM-TO:split:NODE,.. By it a line is down, or cut into these nodes and the others, from one
slot to another. If neither line is whole in a slot, the frame is lost. It writes a line for each
FAULT, and then the report of the run.

tail runs a scenario as replay does, and tells whether the run was long enough that every message
has to be settled. It counts from the last event: a send, a fault, a stop, a frame of a message.

watch runs a scenario as replay does, while a second thread reads the log of the node. It writes
that log: the logs of the node's incarnations, one after the other. NODE has 1 or 2 digits.

A scenario is a TOML document; slots, nodes and entries are counted from 0:
  format, nodes, slots       required; format 1 has up to 32 nodes, format 2 up to 64
  lag, omit, errors          unread notices, omissions, errors; 0, 1 and 2 where absent
  bound, cycle, life, silence, confirm   in slots; the least legal ones, and 10, where absent
  members = [NODE, ..]       the members of view 0; all nodes where absent
  [[send]]                   slot, node, service = \"ed\", \"rel\" or \"tot\", data = \"HEX\"
  [[fault]]                  slot, or class, number, node and nth; verdict = \"clean\", \"lost\",
                             \"partial\" or \"silent\"; reject = [NODE, ..], stop = [NODE, ..]
  [[join]] [[leave]] [[restart]]   slot, node
  journal = [\".012\", ..]   . is a slot; 0 to 9, a to z, A to Z, + and - are turns of nodes

exit status: {DONE}  success
             {OTHER_WORDS}  unknown command or wrong arguments; nothing was read or written
             {REFUSED}  the scenario or its journal was refused; the one line written says why
             {READ_FAULT}  reading standard input failed; nothing was written
             {WRITE_FAULT}  writing standard output failed
             {NO_MEMORY}  out of memory; nothing was written
             {TOO_LONG}  the scenario has more than {MOST_TEXT_BYTES} bytes; nothing was written
             {HELD}  a gate held the run, and nothing was written; no gate of this program does
             {BROKEN}  check: a part of the promise is broken; the whole verdict was written
            {OPEN}  check: no part is broken, and one is open: a longer run can tell
",
        u32::MAX
    )
}
