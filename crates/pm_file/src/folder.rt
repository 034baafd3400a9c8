// The folder of a path.
ghost use Rattle.std.specs.Prelude.{◌≡◌};
ghost use Rattle.pm_file.specs.Folder.{folder_of_path, or_here as folder_or_here};

use std::fs::{File, OpenFile};
use std::path::Path;
use std::rt::Files;

/// The folder of a path: what stands before its last name, or `.` where nothing does.
pub fn folder_of(path: &str) -> &str
    ensures { result.now ≡ folder_of_path path.now }
{
    match Path::new(path).parent() {
        Some(folder) => or_here(folder.as_str()),
        None => ".",
    }
}

// The folder itself, or the one that the program runs in.
fn or_here(folder: &str) -> &str
    ensures { result.now ≡ folder_or_here folder.now }
{
    if folder.is_empty() { "." } else { folder }
}

/// Waits until a path's name is safe in its folder. Where the system refuses that, the name is as safe as the system
/// keeps it.
pub fn sync_folder_of<R: Files>(rt: &R, path: &str) {
    if let Ok(folder) = File::open(rt, folder_of(path)) {
        let _ = folder.sync_all();
    }
}
