ghost use Rattle.std.specs.Prelude.{IsErrOf, OnOk, OnErr};
ghost use Rattle.std.specs.Io.KnownBytes.{Appends};
ghost use Rattle.rb_base.specs.Faults.{Rose};
ghost use Rattle.rb_io.specs.Prefix.{GrowsByPrefix};
ghost use Rattle.rb_logs.specs.Dump.{dump_text};

use crate::dump::dump;
use rb_base::OutFault;
use rb_disk::MemoryDisk;
use rb_io::{Sink, write_all};
use std::alloc::Global;

/// Prints the files of both sites' devices. On an `Err`, a prefix of the text has been written; it
/// may be empty.
pub(crate) fn print_files<O: Sink>(
    alloc: Global,
    disk_a: &MemoryDisk,
    disk_b: &MemoryDisk,
    out: &mut O,
) -> Result<(), OutFault>
    ensures whole { OnOk result (Appends (O.held out.old) (O.held out.new)
        (dump_text disk_a.now disk_b.now)) }
    ensures part { OnErr result (GrowsByPrefix (O.held out.old) (O.held out.new)
        (dump_text disk_a.now disk_b.now)) }
    ensures failed { IsErrOf result OutFault.Failed →
        Rose (O.fault_count out.old) (O.fault_count out.new) }
{
    let text = dump(alloc, disk_a, disk_b)?;
    write_all(out, text.as_slice())?;
    Ok(())
}
