// What killed runs left in `out`.
ghost use Rattle.std.specs.Prelude.{◌≡◌, IfOk, IfSome};
ghost use Rattle.std.specs.Bool.{OnTrue};
ghost use Rattle.std.specs.Path.{path_bytes};
ghost use Rattle.std.specs.Fs.{dir_entry_path};
ghost use Rattle.clio_folder.specs.Parts.{IsPartName, last_name};

use std::fs::DirEntry;
use std::path::Path;
use std::rt::Files;
use std::{fs, io};

// A file whose name is that of a part. No other file is ever removed here.
#[derive(Drop)]
struct LeftOver<'a> {
    path: Path<'a>,
    ghost told: { IsPartName (last_name (path_bytes path)) },
}

impl<'a> LeftOver<'a> {
    // Removes it. A part that can't be removed is in nobody's way.
    fn remove<R: Files>(&self, rt: &R) {
        fs::remove_file(rt, self.path).ok();
    }
}

// The number of the process that wrote the part of this name, if it is the name of one.
fn process_of_part(name: &str) -> Option<u32>
    ensures { IfSome result (λ _. IsPartName name.now) }
{
    let (number, time) = name.strip_prefix(".clio-")?.split_once('-')?;
    if !time.ends_with(".part") {
        return None;
    }
    number.parse::<u32>().ok()
}

// Whether a file of this name is the part of a run that has ended: its process is this one, which has begun none, or is
// gone. If the processes can't be seen, each is taken for gone; a run whose part is taken away fails at the move,
// and nothing is mixed.
fn is_left_over<R: Files + AllocGlobal>(rt: &R, process: u32, name: &str) -> io::Result<bool>
    ensures { IfOk result (λ b. OnTrue b (IsPartName name.now)) }
{
    let Some(number) = process_of_part(name) else {
        return Ok(false);
    };
    let path = format!(in rt.alloc(); "/proc/{number}")?;
    Ok(number == process || !fs::exists(rt, path.as_str())?)
}

// The part that a run which has ended left at an entry of `out`.
fn left_over<'e, R: Files + AllocGlobal, D: Files>(
    rt: &R,
    process: u32,
    entry: &'e DirEntry<D>,
) -> io::Result<Option<LeftOver<'e>>>
    ensures { IfOk result (λ found. IfSome found (λ part. path_bytes part.path ≡ dir_entry_path entry.now)) }
{
    if !is_left_over(rt, process, entry.file_name())? {
        return Ok(None);
    }
    Ok(Some(LeftOver { path: entry.path() }))
}

/// Removes the parts that killed runs left in `out`. It is called before this run has written one.
pub fn remove_left_overs<R: Files + AllocGlobal>(rt: &R, process: u32) -> io::Result<()> {
    for entry in fs::read_dir(&rt, "out")? {
        let entry = entry?;
        if let Some(part) = left_over(rt, process, &entry)? {
            part.remove(rt);
        }
    }
    Ok(())
}
