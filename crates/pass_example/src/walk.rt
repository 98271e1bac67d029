//! Runs the commands of `passtool`, and prints each command line with its output. The printed
//! command lines save passes to files for later commands. The code uses no files, and keeps the
//! passes in memory.

use passtool_commands::run;
use std::alloc::Global;

const ROOT: &str = "00112233445566778899aabbccddeeff";

const OTHER_ROOT: &str = "ffeeddccbbaa99887766554433221100";

/// Runs the commands, and prints them with their output. The commands make a new pass, then narrow,
/// show, convert and verify the pass. At the end, `passtool` refuses a caveat that isn't in the
/// caveat language.
pub(crate) fn print_walk(rt: &(impl Print + Alloc<A = Global>)) -> anyhow::Result<()> {
    let pass = mint_pass(rt)?;
    let words = [
        "passtool",
        "narrow",
        "kind = court",
        "until < 2026-05-01T18:00",
    ];
    let narrowed = step(
        rt,
        words.as_slice(),
        " < pass | tee narrowed",
        pass.as_str(),
    )?;
    let words = ["passtool", "show"];
    step(rt, words.as_slice(), " < narrowed", narrowed.as_str())?;
    let words = ["passtool", "convert", "--form", "json"];
    let json = step(
        rt,
        words.as_slice(),
        " < narrowed | tee json",
        narrowed.as_str(),
    )?;
    for root in [ROOT, OTHER_ROOT] {
        let words = ["passtool", "verify", "--root", root];
        step(rt, words.as_slice(), " < json", json.as_str())?;
    }
    let words = ["passtool", "narrow", "shoe = red"];
    step(rt, words.as_slice(), " < json", json.as_str())?;
    Ok(())
}

fn mint_pass(rt: &(impl Print + Alloc<A = Global>)) -> anyhow::Result<String> {
    let words = [
        "passtool",
        "mint",
        "--root",
        ROOT,
        "--id",
        "key:amy-1",
        "--location",
        "club-desk",
    ];
    step(rt, words.as_slice(), " | tee pass", "")
}

// Prints a command line, then runs the command. Prints and returns the output.
fn step(
    rt: &(impl Print + Alloc<A = Global>),
    words: &[&str],
    files: &str,
    input: &str,
) -> anyhow::Result<String> {
    let line = command_line(rt.alloc(), words)?;
    println!(rt; "$ {line}{files}")?;
    let output = output_of(rt.alloc(), words, input)?;
    print!(rt; "{output}")?;
    Ok(output)
}

// Runs a command with this input, and returns the output. If the run fails, returns the line for
// standard error.
fn output_of(alloc: Global, words: &[&str], input: &str) -> anyhow::Result<String> {
    let mut written = Vec::new(alloc);
    match run(alloc, words, &mut input.as_bytes(), &mut written) {
        Ok(_) => Ok(String::from_utf8_lossy(alloc, written.as_slice())?),
        Err(fault) => Ok(format!(in alloc; "{fault}\n")?),
    }
}

// Returns a command line as a user types it in a shell. A word with a space is in double quotes.
fn command_line(alloc: Global, words: &[&str]) -> anyhow::Result<String> {
    let mut line = String::new(alloc);
    for (index, word) in words.iter().enumerate() {
        if index > 0 {
            line.push(' ')?;
        }
        let quote = if word.contains(' ') { "\"" } else { "" };
        line.push_str(quote)?;
        line.push_str(word)?;
        line.push_str(quote)?;
    }
    Ok(line)
}
