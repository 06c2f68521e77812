// The files of an exchange.
ghost use Rattle.std.specs.Prelude.{IfOk};
ghost use Rattle.dx_base.specs.Entries.{entries_of};
ghost use Rattle.dx_funcs.specs.Serving.{offered};
ghost use Rattle.clio_top.specs.FilesOf.{EntriesOfExchange, CanBeWritten};

use clio_accept::Mapping;
use clio_files::{Output, into_files, print_files};
use dx_base::{File, Items, Text};
use dx_exchange::{Exchange, Mode};
use dx_funcs::{Host, Meaning};
use std::alloc::{AllocError, Global};

/// The files that `exchange` puts, in order: `rules.txt`, `script.sql` in this mode, a table for each target table, `nulls.csv`,
/// `fold.csv`, and with `nested` a document for each target root.
///
/// # Errors
///
/// Out of memory.
pub fn files<F, M>(
    alloc: Global,
    mapping: &Mapping,
    exchange: &Exchange,
    mode: Mode,
    nested: bool,
    host: &Host<F, M>,
) -> Result<Vec<File>, AllocError>
where
    F: Fn(u32, &Items<Text>) -> Result<Text, AllocError>,
    M: Meaning,
    requires { CanBeWritten (offered host.now) mapping.now exchange.now }
    ensures { IfOk result (λ fs. EntriesOfExchange (offered host.now) mode nested mapping.now exchange.now (entries_of fs.items)) }
{
    let output = Output { mode, nested };
    let printed = print_files(alloc, mapping, exchange, host, output)?;
    into_files(alloc, printed)
}
