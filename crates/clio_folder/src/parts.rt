// A file is written whole beside its place, as a part, and then moved there. So what is at the place is whole at any
// time, and a link or a FIFO there is replaced, and never written to.
ghost use Rattle.std.specs.Prelude.{◌≡◌, ◌∷◌, [], ◌++◌, IfOk, OnOk, OnErr};

use crate::logged::{Logged, write_whole};
use dx_base::Text;
use dx_ports::WriteLog;
use std::fs::{File, OpenFile};
use std::io::{ErrorKind, Write};
use std::rt::{Clock, Files};
use std::{fs, io};

/// A part that was written, with the log of what its file took.
#[derive(Drop)]
pub struct Part {
    path: String,
    log: WriteLog,
}

/// Makes the folder `out`, if it is absent. A link in its place is refused, since it may lead anywhere.
pub fn make_out<R: Files>(rt: &R) -> io::Result<()> {
    // It may be there already: what counts is what is there now.
    fs::create_dir(rt, "out").ok();
    if fs::symlink_metadata(rt, "out")?.is_dir() {
        return Ok(());
    }
    Err(io::Error::from(ErrorKind::NotADirectory))
}

// A name that no other run gives, also if it has the number of this process on another machine; no file of a target
// begins with a dot.
fn part_path<R: AllocGlobal + Clock>(rt: &R, process: u32) -> io::Result<String> {
    let time = rt.since_1970()?;
    let (seconds, nanos) = (time.as_secs(), time.subsec_nanos());
    let path = format!(in rt.alloc(); "out/.clio-{process}-{seconds}-{nanos}.part")?;
    Ok(path)
}

/// Hands all bytes to a new file, and from there to the disk: an error that the system would report at the close shows
/// here.
pub fn fill<F: Write + OpenFile + Drop>(file: F, bytes: &[u8]) -> io::Result<WriteLog>
    ensures { IfOk result (λ log. log.written.said ≡ bytes.now) }
{
    let mut file = Logged::new(file);
    write_whole(&mut file, bytes)?;
    let Logged { to, log } = file;
    to.sync_all()?;
    Ok(log)
}

/// Writes a part with these bytes. There is none if it fails.
pub fn write_part<R: Files + AllocGlobal + Clock>(
    rt: &R,
    process: u32,
    bytes: &[u8],
) -> io::Result<Part>
    ensures { IfOk result (λ part. part.log.written.said ≡ bytes.now) }
{
    let path = part_path(rt, process)?;
    let file = File::create_new(rt, path.as_str())?;
    match fill(file, bytes) {
        Ok(log) => Ok(Part { path, log }),
        Err(error) => {
            // The error of the writing is told, also if the part can't be removed.
            fs::remove_file(rt, path.as_str()).ok();
            Err(error)
        }
    }
}

fn move_to<R: Files + AllocGlobal>(rt: &R, from: &str, name: &str) -> io::Result<()> {
    let path = format!(in rt.alloc(); "out/{name}")?;
    fs::rename(rt, from, path.as_str())
}

/// Moves a part that has these bytes to the place of the file of this name, and logs that it was put. If it fails, the
/// part is removed.
pub fn publish<R: Files + AllocGlobal>(
    rt: &R,
    part: &Part,
    name: &Text,
    bytes: &[u8],
    log: &mut WriteLog,
) -> io::Result<()>
    requires { part.now.log.written.said ≡ bytes.now }
    ensures put { OnOk result (log.new.written.files ≡ log.old.written.files ++ (name.now, bytes.now) ∷ []) }
    ensures refused { OnErr result (log.new.written.files ≡ log.old.written.files) }
{
    match move_to(rt, part.path.as_str(), name.as_str()) {
        Ok(()) => {
            log.put(name.bytes(), bytes);
            Ok(())
        }
        Err(error) => {
            // The error of the move is told, also if the part can't be removed.
            fs::remove_file(rt, part.path.as_str()).ok();
            Err(error)
        }
    }
}
