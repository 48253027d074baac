//! How fast certificates are read, checked and printed.

ghost use Rattle.std.specs.Prelude.{IfOk};
ghost use Rattle.cert_format.specs.Printable.{IsPrintable};

use crate::report::{Size, now, print_row, step};
use crate::turnarounds::submission;
use cert_checker::{Verdict, check};
use cert_format::{CertFault, Certificate, LONGEST_CERT, print_cert, read_cert};
use series_model::Submission;
use slot_text::{Memory, put_number};
use std::alloc::Global;
use std::time::Instant;

// What the leaves of the last stage's tree are.
#[derive(Clone, Copy)]
enum Leaves {
    // Each turnaround gets its requested times; half of the leaves name a vector with a price.
    Served,
    // A window of a whole day is too small for all turnarounds.
    Over,
}

// A season and its certificate.
#[derive(Clone, Copy)]
struct Case {
    leaves: Leaves,
    units: u32,
    // How many leaves the tree of the last stage has.
    count: u64,
    // How many vectors are listed beside those that leaves name, and how many prices each has.
    vectors: u64,
    prices: u64,
}

/// Checks the certificate of a season of daily turnarounds: of many that all get their requested
/// times, with one leaf a stage; and of fewer with large trees, once with leaves by bounds and once
/// by a window that is too small. At full size also one of 512 MiB with a million nodes. Prints the
/// verdicts, and how long the texts are.
pub fn run(rt: &HostRuntime, alloc: Global, size: Size) -> anyhow::Result<()> {
    let (many, few, count) = match size {
        Size::Short => (10, 5, 10),
        Size::Full => (500, 50, 50_000),
    };
    one_case(rt, alloc, size, case_of(Leaves::Served, many, 1))?;
    one_case(rt, alloc, size, case_of(Leaves::Served, few, count))?;
    one_case(rt, alloc, size, case_of(Leaves::Over, few, count))?;
    match size {
        Size::Short => Ok(()),
        Size::Full => one_case(rt, alloc, size, long_case(few)),
    }
}

fn long_case(units: u32) -> Case {
    Case {
        vectors: 63,
        prices: 370_000,
        ..case_of(Leaves::Served, units, 500_000)
    }
}

fn case_of(leaves: Leaves, units: u32, count: u64) -> Case {
    Case {
        leaves,
        units,
        count,
        vectors: 0,
        prices: 0,
    }
}

fn one_case(rt: &HostRuntime, alloc: Global, size: Size, case: Case) -> anyhow::Result<()> {
    let mut text = Vec::new(alloc);
    put_cert(alloc, &mut text, case)?;
    one_text(rt, alloc, size, case, &text)
}

// Reads a text, checks what it is, and prints that again.
fn one_text(
    rt: &HostRuntime,
    alloc: Global,
    size: Size,
    case: Case,
    text: &[u8],
) -> anyhow::Result<()> {
    let (lines, line) = lines_of(case.leaves);
    let made = submission(alloc, case.units, *b"NNNN", lines, line)?;
    read_text(rt, alloc, size, case, &made, text)
}

fn read_text(
    rt: &HostRuntime,
    alloc: Global,
    size: Size,
    case: Case,
    made: &Submission,
    text: &[u8],
) -> anyhow::Result<()> {
    let start = now(rt);
    match read(alloc, text) {
        Ok(cert) => { judge(rt, alloc, size, case, made, text, &cert, start) }
        Err(_fault) => print_row(rt, "checks: not read", &[]),
    }
}

// Checks a certificate that was read, and prints it again.
fn judge(
    rt: &HostRuntime,
    alloc: Global,
    size: Size,
    case: Case,
    made: &Submission,
    text: &[u8],
    cert: &Certificate,
    start: Option<Instant>,
) -> anyhow::Result<()>
    requires { IsPrintable cert.now }
{
    step(rt, size, "reading", start)?;
    let start = now(rt);
    let verdict = check(alloc, made, cert)?;
    step(rt, size, "checking", start)?;
    print_verdict(rt, case, text.len(), verdict)?;
    print_again(rt, alloc, size, text, cert)
}

// Prints how large a case is, and which line of its certificate fails, or 0.
fn print_verdict(
    rt: &HostRuntime,
    case: Case,
    bytes: usize,
    verdict: Verdict,
) -> anyhow::Result<()> {
    let failing = match verdict {
        Verdict::Yes => 0,
        Verdict::No { line, .. } => u64::from(line),
    };
    let numbers = [
        ("units", u64::from(case.units)),
        ("leaves", case.count),
        ("bytes", bytes as u64),
        ("failing line", failing),
    ];
    print_row(rt, "checks", &numbers)
}

// What was read can be checked.
fn read(alloc: Global, text: &[u8]) -> Result<Certificate, CertFault>
    ensures { IfOk result (λ cert. IsPrintable cert) }
{
    if text.len() > LONGEST_CERT {
        return Err(CertFault::Memory);
    }
    read_cert(alloc, text)
}

// Prints a certificate, and whether that is the text that was read.
fn print_again(
    rt: &HostRuntime,
    alloc: Global,
    size: Size,
    text: &[u8],
    cert: &Certificate,
) -> anyhow::Result<()>
    requires { IsPrintable cert.now }
{
    let start = now(rt);
    let printed = print_cert(alloc, cert)?;
    print_same(rt, size, text, &printed, start)
}

fn print_same(
    rt: &HostRuntime,
    size: Size,
    text: &[u8],
    printed: &[u8],
    start: Option<Instant>,
) -> anyhow::Result<()> {
    step(rt, size, "printing", start)?;
    let same = printed == text;
    print_row(rt, "checks: printed", &[("the same", u64::from(same))])
}

// How many capacity lines: windows of an hour each five minutes that hold all turnarounds, or one
// window a day that does not hold two movements of each.
fn lines_of(leaves: Leaves) -> (u32, &'static [u8]) {
    match leaves {
        Leaves::Served => (16, b"CAP TOT 60 0000 2355 1234567 999\n"),
        Leaves::Over => (1, b"CAP TOT 1440 0000 0000 1234567 2\n"),
    }
}

// Appends the certificate of a case: nobody stands in the first three stages.
fn put_cert(alloc: Global, out: &mut Vec<u8>, case: Case) -> Result<(), Memory> {
    out.extend_from_slice(b"CERT 1\n")?;
    for stage in 1..4 {
        put_numbers(alloc, out, b"STAGE", &[stage])?;
        out.extend_from_slice(b" OPTIMAL\nCHOICES 0\nCOST 0\nVECTORS 0\nTREE 1\nL 0 1 0\n")?;
    }
    match case.leaves {
        Leaves::Served => put_served(alloc, out, case)?,
        Leaves::Over => {
            out.extend_from_slice(b"STAGE 4 INFEASIBLE\nCHOICES NONE\nVECTORS 0\n")?;
        }
    }
    put_tree(alloc, out, case)?;
    out.extend_from_slice(b"END\n")?;
    Ok(())
}

// Each turnaround has 25 times for each of its movements; the requested ones are alternative 312.
fn put_served(alloc: Global, out: &mut Vec<u8>, case: Case) -> Result<(), Memory> {
    out.extend_from_slice(b"STAGE 4 OPTIMAL\n")?;
    put_line(alloc, out, b"CHOICES", &[u64::from(case.units)])?;
    for unit in 0..case.units {
        put_line(alloc, out, b"C", &[u64::from(unit), 312])?;
    }
    out.extend_from_slice(b"COST 0\n")?;
    put_line(alloc, out, b"VECTORS", &[case.vectors.saturating_add(1)])?;
    out.extend_from_slice(b"VECTOR 1\nP 0 1\n")?;
    for _ in 0..case.vectors {
        put_vector(alloc, out, case.prices)?;
    }
    Ok(())
}

fn put_vector(alloc: Global, out: &mut Vec<u8>, prices: u64) -> Result<(), Memory> {
    put_line(alloc, out, b"VECTOR", &[prices])?;
    for resource in 0..prices {
        put_line(alloc, out, b"P", &[resource, 1_099_511_627_775])?;
    }
    Ok(())
}

// A tree of so many leaves: half of them on either side of each split, and one unit at each depth.
fn put_tree(alloc: Global, out: &mut Vec<u8>, case: Case) -> Result<(), Memory> {
    let nodes = case.count.saturating_mul(2).saturating_sub(1);
    put_line(alloc, out, b"TREE", &[nodes])?;
    let mut pending = vec![in alloc; (case.count, 0_u64)]?;
    put_nodes(alloc, out, case.leaves, &mut pending, nodes)
}

// Appends so many nodes: how many leaves those have that come next, and at which depth, is pending.
fn put_nodes(
    alloc: Global,
    out: &mut Vec<u8>,
    kind: Leaves,
    pending: &mut Vec<(u64, u64)>,
    nodes: u64,
) -> Result<(), Memory> {
    for _ in 0..nodes {
        let Some((leaves, depth)) = pending.pop() else {
            return Ok(());
        };
        if leaves > 1 {
            put_split(alloc, out, depth)?;
            pending.push((leaves - leaves / 2, depth.saturating_add(1)))?;
            pending.push((leaves / 2, depth.saturating_add(1)))?;
        } else {
            put_leaf(out, kind, depth)?;
        }
    }
    Ok(())
}

fn put_split(alloc: Global, out: &mut Vec<u8>, unit: u64) -> Result<(), Memory> {
    put_numbers(alloc, out, b"S", &[unit, 312])?;
    out.extend_from_slice(b" -\n")?;
    Ok(())
}

fn put_leaf(out: &mut Vec<u8>, leaves: Leaves, depth: u64) -> Result<(), Memory> {
    let line: &[u8] = match leaves {
        Leaves::Served if depth % 2 == 0 => b"L 0 1 0\n",
        Leaves::Served => b"L 1 1024 0\n",
        Leaves::Over => b"O 0\n",
    };
    out.extend_from_slice(line)?;
    Ok(())
}

fn put_line(alloc: Global, out: &mut Vec<u8>, tag: &[u8], numbers: &[u64]) -> Result<(), Memory> {
    put_numbers(alloc, out, tag, numbers)?;
    out.push(b'\n')?;
    Ok(())
}

fn put_numbers(
    alloc: Global,
    out: &mut Vec<u8>,
    tag: &[u8],
    numbers: &[u64],
) -> Result<(), Memory> {
    out.extend_from_slice(tag)?;
    for number in numbers {
        out.push(b' ')?;
        put_number(alloc, out, *number)?;
    }
    Ok(())
}
