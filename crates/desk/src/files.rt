// Reading a sheet and writing one.
use commands::Output;
use sheets::LONGEST;
use std::fs::File;
use std::io::{ErrorKind, Read, Write};
use std::{fs, io};

// One byte more than the longest sheet that is opened, so that a longer one is known.
const MOST: u64 = LONGEST as u64 + 1;

// The bytes of a file, at most 65,537 of them; a missing file counts as empty.
pub fn read_sheet(rt: &HostRuntime, name: &str) -> io::Result<Vec<u8>> {
    let mut bytes = Vec::new(rt.alloc());
    match fs::open(rt, name) {
        Ok(file) => {
            file.take(MOST).read_to_end(&mut bytes)?;
            Ok(bytes)
        }
        Err(error) if error.kind() == ErrorKind::NotFound => Ok(bytes),
        Err(error) => Err(error),
    }
}

// Writes the bytes to the file; one that is there stays as it is, unless it may be replaced.
pub fn write_sheet(rt: &HostRuntime, output: Output<'_>, bytes: &[u8]) -> io::Result<()> {
    if output.replace {
        return fs::write(rt, output.file, bytes);
    }
    let mut file = File::create_new(rt, output.file)?;
    file.write_all(bytes)
}
