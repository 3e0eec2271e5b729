// Lists the cases of the file cases.txt, whose listings the other checker made, and prints a line -- behind each listing.
#![tactic(auto)]

use anyhow::anyhow;
use listings::list;
use std::alloc::Global;
use std::fs;
use std::io::Write;

// The longest listing: 256 places and a first line.
const LONGEST: usize = 33000;

// What a hexadecimal digit counts; 0 for any other character.
fn digit(c: u8) -> u8 {
    match c {
        b'0'..=b'9' => c - b'0',
        b'a'..=b'f' => c - b'a' + 10,
        _ => 0,
    }
}

// The bytes of a sheet, written in two digits each; `-` is the empty sheet. By hand, since the kit's `hex` refuses what counts
// 0 here.
fn sheet(heap: Global, word: &str) -> anyhow::Result<Vec<u8>> {
    let mut bytes = Vec::new(heap);
    let (pairs, _) = word.as_bytes().as_chunks::<2>();
    for pair in pairs {
        let [high, low] = *pair;
        bytes.push(digit(high) << 4 | digit(low))?;
    }
    Ok(bytes)
}

// Prints the listing of a case: the book's sheet, a space, the task's sheet.
fn print_case(rt: &HostRuntime, line: &str) -> anyhow::Result<()> {
    let Some((book, task)) = line.split_once(' ') else {
        return Err(anyhow!("a line without a space"));
    };
    let book = sheet(rt.alloc(), book)?;
    let task = sheet(rt.alloc(), task)?;
    let mut out = [0; LONGEST];
    let Ok(length) = list(book.as_slice(), task.as_slice(), &mut out) else {
        return Err(anyhow!("a listing that is too long"));
    };
    rt.stdout().write_all(&out[..length])?;
    println!(rt; "--")?;
    Ok(())
}

fn main(rt: HostRuntime) -> anyhow::Result<()> {
    let cases = fs::read_to_string(&rt, "cases.txt")?;
    for line in cases.as_str().lines() {
        print_case(&rt, line)?;
    }
    Ok(())
}
