// SPDX-License-Identifier: Apache-2.0
//! The program `otel_example_runs` tries the examples, which lie in the folder that it runs in. Each has three files:
//! `NAME.txt` is a script, `NAME.args` the arguments of `otel_trace` for it, one a line, and `NAME.out` what is written
//! then. What the same script writes under `NAME.KIND.args` is `NAME.KIND`. The program runs each script, in the order
//! of the names, and prints whether it wrote that and ended well, or else what it wrote.
#![tactic(auto)]

use otel_trace_run::run_program;
use std::alloc::{AllocError, Global};
use std::io::Write;
use std::{fs, io};

fn main(rt: HostRuntime) -> io::Result<()> {
    let alloc = rt.alloc();
    let mut out = Vec::new(alloc);
    for name in &example_names(&rt)? {
        try_example(&rt, name.as_str(), &mut out)?;
    }
    rt.stdout().write_all(&out)
}

/// The names of the arguments in this folder, in order.
fn example_names(rt: &HostRuntime) -> io::Result<Vec<String>> {
    let mut names = Vec::new(rt.alloc());
    for entry in fs::read_dir(rt, ".")? {
        let entry = entry?;
        if let Some(name) = entry
            .file_name()
            .to_str()
            .and_then(|file| file.strip_suffix(".args"))
        {
            names.push(String::from_str(rt.alloc(), name)?)?;
        }
    }
    names.sort()?;
    Ok(names)
}

/// Runs one example, and puts out what came of it.
fn try_example(rt: &HostRuntime, name: &str, out: &mut Vec<u8>) -> io::Result<()> {
    let arguments = fs::read_to_string(rt, format!(in rt.alloc(); "{name}.args")?)?;
    let (script, wanted) = files_of(rt.alloc(), name)?;
    let script = fs::read(rt, script)?;
    let wanted = fs::read(rt, wanted)?;
    let words = lines_of(rt.alloc(), arguments.as_str())?;
    put_answer(rt.alloc(), name, &words, &script, &wanted, out)?;
    Ok(())
}

/// The files of an example: its script, and what that writes.
fn files_of(alloc: Global, name: &str) -> Result<(String, String), AllocError> {
    match name.split_once('.') {
        Some((script, _)) => Ok((
            format!(in alloc; "{script}.txt")?,
            String::from_str(alloc, name)?,
        )),
        None => Ok((
            format!(in alloc; "{name}.txt")?,
            format!(in alloc; "{name}.out")?,
        )),
    }
}

/// Each line of a text.
fn lines_of(alloc: Global, text: &str) -> Result<Vec<String>, AllocError> {
    let mut lines = Vec::new(alloc);
    for line in text.lines() {
        lines.push(String::from_str(alloc, line)?)?;
    }
    Ok(lines)
}

/// Runs a script under these arguments, and puts out whether it wrote what is wanted, and else what it wrote.
fn put_answer(
    alloc: Global,
    name: &str,
    words: &[String],
    script: &[u8],
    wanted: &[u8],
    out: &mut Vec<u8>,
) -> Result<(), AllocError> {
    let mut input = script;
    let mut written = Vec::new(alloc);
    let mut faults = Vec::new(alloc);
    let status = run_program(alloc, words, &mut input, &mut written, &mut faults);
    if status == 0 && written.as_slice() == wanted {
        return put(
            out,
            format!(in alloc; "{name} writes what its file has\n")?.as_str(),
        );
    }
    put(
        out,
        format!(in alloc; "{name} ends with status {status} and writes\n")?.as_str(),
    )?;
    out.extend_from_slice(&written)?;
    out.extend_from_slice(&faults)
}

fn put(out: &mut Vec<u8>, text: &str) -> Result<(), AllocError> {
    out.extend_from_slice(text.as_bytes())
}
