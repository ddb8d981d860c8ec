//! Files by name; `-` is standard input.
use crate::failure::Failure;
use std::io::Read;
use std::{fs, io};

fn read_standard_input(rt: &HostRuntime) -> io::Result<Vec<u8>> {
    let mut bytes = Vec::new(rt.alloc());
    rt.stdin().read_to_end(&mut bytes)?;
    Ok(bytes)
}

/// All bytes of a file, or of standard input.
pub fn read(rt: &HostRuntime, name: &str) -> Result<Vec<u8>, Failure> {
    let (shown, bytes) = match name {
        "-" => ("standard input", read_standard_input(rt)),
        _ => (name, fs::read(rt, name)),
    };
    bytes.try_map_err(|error| Ok(Failure::Unread(String::from_str(rt.alloc(), shown)?, error)))
}

/// The text of a file, or of standard input.
pub fn read_text(rt: &HostRuntime, name: &str) -> Result<String, Failure> {
    String::from_utf8(read(rt, name)?).try_map_err(|_| Ok(Failure::NoText(String::from_str(
        rt.alloc(),
        name,
    )?)))
}
