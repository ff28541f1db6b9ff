//! The files of the folder where the program runs, and of the folders in it.

use std::alloc::AllocError;
use std::rt::Files;
use std::{fs, io};

fn push_name(names: &mut Vec<String>, name: &str) -> Result<(), AllocError> {
    let name = String::from_str(*names.allocator(), name)?;
    Ok(names.push(name)?)
}

/// The names of the folders that lie in a folder, in order.
pub fn folders_in<R: Files + AllocGlobal + Clone + Drop>(
    rt: &R,
    folder: &str,
) -> io::Result<Vec<String>> {
    let mut folders = Vec::new(rt.alloc());
    for entry in fs::read_dir(rt, folder)? {
        let entry = entry?;
        if entry.file_type()?.is_dir() {
            push_name(&mut folders, entry.file_name())?;
        }
    }
    folders.sort()?;
    Ok(folders)
}

/// The names of the files of a folder that end so, in order.
pub fn files_in<R: Files + AllocGlobal + Clone + Drop>(
    rt: &R,
    folder: &str,
    ending: &str,
) -> io::Result<Vec<String>> {
    let mut files = Vec::new(rt.alloc());
    for entry in fs::read_dir(rt, folder)? {
        let entry = entry?;
        if entry.file_name().ends_with(ending) {
            push_name(&mut files, entry.file_name())?;
        }
    }
    files.sort()?;
    Ok(files)
}
