//! Books with which amendments begin.

ghost use Rattle.std.specs.Prelude.{◌≤◌, length};
ghost use Rattle.cert_format.specs.Printable.{IsPrintable};

use crate::lines::{message, put_lines, put_number, put_texts};
use capacity_file::read_capacity;
use cert_checker::{Verdict, check};
use cert_format::{Certificate, LONGEST_CERT, read_cert};
use holding_book::Book;
use scr_reader::laws::read_lines_fit;
use scr_reader::read_all;
use series_model::Submission;
use series_model::laws::read_messages;
use std::alloc::Global;
use std::process::Abort;
use wasg_stages::laws::valid_choices;

/// A book of one arrival, BA001 at 0610 on each day, and room for two in its hour.
pub(crate) fn small_book(rt: &impl Abort, alloc: Global) -> Book
    ensures { length result.book.holdings ≤ 1000000 }
{
    start_book(
        rt,
        alloc,
        "CAP ARR 60 0600 0600 1234567 2",
        "FBA001 0610",
        "0;;;",
    )
}

/// The book with which the amendments of a season begin. The season is S25 at ABC with a step of
/// five minutes and a least ground time of forty, and these lines of its capacity file, with `FLEX
/// 60` and no refusals where they do not begin with `FLEX`. The stages are those of a certificate
/// that the checker accepts.
pub(crate) fn start_book(
    rt: &impl Abort,
    alloc: Global,
    capacity: &str,
    requests: &str,
    stages: &str,
) -> Book
    ensures { length result.book.holdings ≤ 1000000 }
{
    let submission = submission(rt, alloc, capacity, requests);
    let cert = certificate(rt, alloc, stages);
    book_of(rt, alloc, &submission, &cert)
}

// The book of a certificate that the checker accepts.
fn book_of(rt: &impl Abort, alloc: Global, submission: &Submission, cert: &Certificate) -> Book
    requires { IsPrintable cert.now }
    ensures { length result.book.holdings ≤ 1000000 }
{
    valid_choices();
    match check(alloc, submission, cert).expect(rt, "memory") {
        Verdict::Yes => {}
        Verdict::No { line, reason: _ } => panic!(rt; "line {line} of the certificate"),
    }
    let book = Book::of(alloc, submission, cert).expect(rt, "memory");
    assert!(rt; book.count() <= 1_000_000, "too many holdings");
    book
}

fn submission(rt: &impl Abort, alloc: Global, capacity: &str, requests: &str) -> Submission {
    let capacity = capacity_text(rt, alloc, capacity);
    let requests = message(rt, alloc, requests);
    read_submission(rt, alloc, capacity.as_bytes(), requests.as_bytes())
}

// The text of a capacity file with these lines.
fn capacity_text(rt: &impl Abort, alloc: Global, capacity: &str) -> String {
    let shifts = if capacity.starts_with("FLEX") {
        ""
    } else {
        "FLEX 60\nREFUSE NONE\n"
    };
    let mut text = String::new(alloc);
    put_texts(
        rt,
        &mut text,
        &["AIRPORT ABC\nSEASON S25\nSTEP 5\nGROUND 40\n", shifts],
    );
    put_lines(rt, &mut text, capacity);
    text
}

fn read_submission(rt: &impl Abort, alloc: Global, capacity: &[u8], requests: &[u8]) -> Submission {
    read_lines_fit();
    read_messages();
    assert!(rt;
        capacity.len() <= 1_000_000 && requests.len() <= 1_000_000,
        "too long"
    );
    let declaration = read_capacity(alloc, capacity).expect(rt, "a capacity file");
    let requests = read_all(alloc, requests).expect(rt, "messages");
    Submission::make(alloc, declaration, requests).expect(rt, "memory")
}

// The certificate of four stages, with a semicolon between two.
fn certificate(rt: &impl Abort, alloc: Global, stages: &str) -> Certificate
    ensures { IsPrintable result }
{
    let text = certificate_text(rt, alloc, stages);
    read(rt, alloc, text.as_bytes())
}

fn read(rt: &impl Abort, alloc: Global, text: &[u8]) -> Certificate
    ensures { IsPrintable result }
{
    assert!(rt; text.len() <= LONGEST_CERT, "too long");
    read_cert(alloc, text).expect(rt, "a certificate")
}

fn certificate_text(rt: &impl Abort, alloc: Global, stages: &str) -> String {
    let mut text = String::new(alloc);
    put_texts(rt, &mut text, &["CERT 1\n"]);
    put_stages(rt, &mut text, stages);
    put_texts(rt, &mut text, &["END\n"]);
    text
}

fn put_stages(rt: &impl Abort, text: &mut String, stages: &str) {
    for (before, stage) in stages.split(';').enumerate() {
        put_number(rt, text, "STAGE", before.wrapping_add(1), " ");
        put_stage(rt, text, stage);
    }
}

// Appends the lines of a stage, from its mark on: one that was not tried; one in which this
// resource is over its limit; one that is open, with nothing or with choices that displace so much
// before a colon; or else one with choices that displace nothing.
fn put_stage(rt: &impl Abort, text: &mut String, stage: &str) {
    if let Some((cost, numbers)) = stage.split_once(':') {
        put_chosen(rt, text, "OPEN", numbers, cost, "U");
    } else if let Some(resource) = stage.strip_prefix("over ") {
        let bare = "INFEASIBLE\nCHOICES NONE\nVECTORS 0\nTREE 1\nO ";
        put_texts(rt, text, &[bare, resource, "\n"]);
    } else if stage == "open" {
        put_texts(rt, text, &["OPEN\nCHOICES NONE\nVECTORS 0\nTREE 1\nU\n"]);
    } else if stage == "untried" {
        put_texts(rt, text, &["NOT TRIED\n"]);
    } else {
        put_chosen(rt, text, "OPTIMAL", stage, "0", "L 0 1 0");
    }
}

// Appends the lines of a stage with this mark, these choices and this leaf.
fn put_chosen(
    rt: &impl Abort,
    text: &mut String,
    mark: &str,
    numbers: &str,
    cost: &str,
    leaf: &str,
) {
    put_texts(rt, text, &[mark, "\n"]);
    put_choices(rt, text, numbers);
    put_texts(
        rt,
        text,
        &["COST ", cost, "\nVECTORS 0\nTREE 1\n", leaf, "\n"],
    );
}

// Appends the lines of the choices of a stage: the numbers of alternatives, with blanks between.
fn put_choices(rt: &impl Abort, text: &mut String, numbers: &str) {
    put_number(
        rt,
        text,
        "CHOICES",
        numbers.split_whitespace().count(),
        "\n",
    );
    for (place, number) in numbers.split_whitespace().enumerate() {
        put_number(rt, text, "C", place, " ");
        put_texts(rt, text, &[number, "\n"]);
    }
}
