//! Runs each command line of cases.txt, and prints what it says on both streams, and its status. A line `show FILE`
//! prints a file, and a line that begins with `#` is passed over.
#![tactic(auto)]

use std::{fs, io};

/// The words of a line, the program's name first.
fn words_of(rt: &HostRuntime, line: &str) -> io::Result<Vec<String>> {
    let mut words = Vec::new(rt.alloc());
    for word in line.split(' ') {
        words.push(String::from_str(rt.alloc(), word)?)?;
    }
    Ok(words)
}

fn show(rt: &HostRuntime, name: &str) -> io::Result<()> {
    match fs::read_to_string(rt, name) {
        Ok(text) => {
            print!(rt; "{text}")?;
            println!(rt; "[end]")
        }
        Err(_) => println!(rt; "[no file]"),
    }
}

fn one(rt: &HostRuntime, line: &str) -> io::Result<()> {
    println!(rt; "$ {line}")?;
    if let Some(name) = line.strip_prefix("show ") {
        return show(rt, name);
    }
    let words = words_of(rt, line)?;
    let status = command_files::perform(rt, words.as_slice(), &mut rt.stdout(), &mut rt.stdout());
    println!(rt; "[status {status}]")
}

fn main(rt: HostRuntime) -> io::Result<()> {
    let text = fs::read_to_string(&rt, "cases.txt")?;
    for line in text.lines() {
        if !line.is_empty() && !line.starts_with('#') {
            one(&rt, line)?;
        }
    }
    Ok(())
}
