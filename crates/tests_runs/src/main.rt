//! Tests of whole runs of the program, and of rehearsals, by cases in files: each is run by public calls alone and compared with
//! what its file says. docs/verification/TESTS.md has the formats.
#![tactic(auto)]

mod bench;
mod devices;
mod place;
mod rehearsals;
mod run;
mod stores;

use bench::Bench;
use case_files::{Case, Tally, Unread, read_cases};
use site_files::STARTER;
use std::alloc::{AllocError, Global};
use std::sync::Wait;
use std::thread::Threads;
use std::{fs, io};

/// The files of cases.
const FILES: [&str; 21] = [
    "program.cases",
    "jobs.cases",
    "serving.cases",
    "changes.cases",
    "connections.cases",
    "rows.cases",
    "pages.cases",
    "lists.cases",
    "access.cases",
    "parents.cases",
    "comments.cases",
    "json.cases",
    "late.cases",
    "model_rows.cases",
    "model_pages.cases",
    "model_edits.cases",
    "model_parents.cases",
    "model_comments.cases",
    "model_json.cases",
    "model_late.cases",
    rehearsals::FILE,
];

/// Runs a case over whole runs of the program, and tells each section of it that differs, a line each.
fn run_case<R: Threads + Wait + Sync>(
    rt: &R,
    alloc: Global,
    case: &Case,
    tally: &mut Tally,
    told: &mut Vec<u8>,
) -> Result<(), AllocError> {
    let mut bench = Bench::new(alloc);
    let sections = case.sections.as_slice();
    for (at, section) in sections.iter().enumerate() {
        let found = bench.take(rt, sections.get(..at).unwrap_or(&[]), section)?;
        if let Some(line) = tally.judge(alloc, case, section, &found)? {
            told.extend_from_slice(line.as_slice())?;
        }
    }
    Ok(())
}

/// Runs these cases of the file of that name, and tells those that differ, and how many agree.
fn run_cases<R: Threads + Wait + Sync>(
    rt: &R,
    alloc: Global,
    name: &str,
    cases: &[Case],
    told: &mut Vec<u8>,
) -> Result<(), AllocError> {
    let mut tally = Tally::new();
    for case in cases {
        tally.count_case();
        if name == rehearsals::FILE {
            rehearsals::run_case(alloc, case, &mut tally, told)?;
        } else {
            run_case(rt, alloc, case, &mut tally, told)?;
        }
    }
    told.extend_from_slice(tally.told(alloc)?.as_bytes())
}

/// Runs the cases of the file of that name, and answers what is told of them.
fn run_file<R: Threads + Wait + Sync>(
    rt: &R,
    alloc: Global,
    name: &str,
    file: &[u8],
) -> Result<Vec<u8>, AllocError> {
    let mut told = Vec::new(alloc);
    match read_cases(alloc, file, STARTER) {
        Ok(cases) => run_cases(rt, alloc, name, cases.as_slice(), &mut told)?,
        Err(Unread::Line(number, why)) => {
            let line = format!(in alloc; "line {number}: {why}")?;
            told.extend_from_slice(line.as_bytes())?;
        }
        Err(Unread::OutOfMemory) => return Err(AllocError),
    }
    Ok(told)
}

fn main(rt: HostRuntime) -> io::Result<()> {
    for name in FILES {
        match fs::read(&rt, name) {
            Ok(file) => {
                let told = run_file(&rt, rt.alloc(), name, file.as_slice())?;
                let text = String::from_utf8_lossy(rt.alloc(), told.as_slice())?;
                println!(rt; "{name}: {text}")?;
            }
            Err(_) => println!(rt; "{name}: no such file")?,
        }
    }
    Ok(())
}
