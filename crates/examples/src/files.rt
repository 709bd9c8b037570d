// The files of the folder that the program is run in.
use std::{fs, io};

// The names of the files in a folder, in order.
pub fn list(rt: &HostRuntime, folder: &str) -> io::Result<Vec<String>> {
    let heap = rt.alloc();
    let mut names: Vec<String> = fs::read_dir(rt, folder)?
        .map(|file| -> io::Result<String> { Ok(String::from_str(heap, file?.file_name())?) })
        .try_collect(heap)?;
    names.sort()?;
    Ok(names)
}

pub fn read(rt: &HostRuntime, folder: &str, name: &str) -> io::Result<String> {
    let path = format!(in rt.alloc(); "{folder}/{name}")?;
    fs::read_to_string(rt, path.as_str())
}
