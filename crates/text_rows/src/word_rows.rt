//! Words of a command line, and what they ask for.

use crate::rows::{Case, Finding, walk};
use command_words::{Job, NameList, WordFault, read_words};
use std::alloc::Global;
use std::process::Abort;

/// Words with one blank between two, so that two blanks have an empty word between them; what they
/// ask for, with a comma between two names, or `no`.
#[derive(Drop)]
struct CommandWords;

impl Case for CommandWords {
    fn find(&mut self, rt: &impl Abort, given: &[u8], out: &mut Finding) {
        let words = words_in(rt, out.alloc, given);
        say_words(out, &words)
    }
}

fn say_words(out: &mut Finding, words: &[String]) {
    match read_words(out.alloc, words) {
        Ok(job) => say_job(out, &job),
        Err(WordFault::Words) => out.put(b"no"),
        Err(WordFault::Memory) => out.put(b"memory ran out"),
    }
}

fn words_in(rt: &impl Abort, alloc: Global, given: &[u8]) -> Vec<String> {
    let mut words = Vec::new(alloc);
    for word in given.split(|byte| *byte == b' ') {
        words.push(word_of(rt, alloc, word)).expect(rt, "memory");
    }
    words
}

fn word_of(rt: &impl Abort, alloc: Global, bytes: &[u8]) -> String {
    let text = str::from_utf8(bytes).expect(rt, "a word of text");
    String::from_str(alloc, text).expect(rt, "memory")
}

fn say_job(out: &mut Finding, job: &Job) {
    out.say(command_of(job));
    if let Some(names) = names_of(job) {
        say_names(out, names);
    }
    for number in numbers_of(job) {
        say_number(out, number);
    }
}

fn say_number(out: &mut Finding, number: Option<u32>) {
    if let Some(number) = number {
        out.say(format_args!(" {number}"));
    }
}

/// The numbers of a job, in their order.
fn numbers_of(job: &Job) -> [Option<u32>; 3] {
    match *job {
        Job::Allocate { nodes, workers, .. } => [Some(nodes), Some(workers), None],
        Job::Reclear { nodes, workers, .. } => [Some(nodes), Some(workers), None],
        Job::Serve {
            links,
            port,
            workers,
            ..
        } => [Some(links), Some(port), Some(workers)],
        Job::Resume {
            links,
            port,
            workers,
            ..
        } => [Some(links), Some(port), Some(workers)],
        Job::Make { number, units, .. } => [Some(number), Some(units), None],
        Job::Trial { number, units } => [Some(number), Some(units), None],
        Job::Check { .. }
        | Job::Amend { .. }
        | Job::Usage { .. }
        | Job::Recheck { .. }
        | Job::Report { .. }
        | Job::Inspect { .. } => [None; 3],
    }
}

/// The command of a job.
fn command_of(job: &Job) -> &'static str {
    match job {
        Job::Allocate { .. } => "allocate",
        Job::Check { .. } => "check",
        Job::Amend { .. } => "amend",
        Job::Serve { .. } => "serve",
        Job::Resume { .. } => "resume",
        Job::Usage { .. } => "usage",
        Job::Reclear { .. } => "reclear",
        Job::Recheck { .. } => "recheck",
        Job::Report { .. } => "report",
        Job::Inspect { .. } => "inspect",
        Job::Make { .. } => "make",
        Job::Trial { .. } => "trial",
    }
}

/// The names of a job, if it has some.
fn names_of(job: &Job) -> Option<&NameList> {
    match job {
        Job::Allocate { names, .. }
        | Job::Check { names }
        | Job::Amend { names }
        | Job::Serve { names, .. }
        | Job::Resume { names, .. }
        | Job::Usage { names }
        | Job::Reclear { names, .. }
        | Job::Recheck { names }
        | Job::Report { names }
        | Job::Inspect { names }
        | Job::Make { names, .. } => Some(names),
        Job::Trial { .. } => None,
    }
}

fn say_names(out: &mut Finding, names: &NameList) {
    let mut mark = " ";
    for name in names.items() {
        out.say(mark);
        out.say(name.text());
        mark = ",";
    }
}

#[test]
fn words_ask_for_jobs(rt: HostRuntime) {
    walk(
        &rt,
        rt.alloc(),
        &mut CommandWords,
        b"\
allocate A B C D|allocate A,B,C,D 100000 4
allocate A B C D --nodes=5|allocate A,B,C,D 5 4
allocate A B C D --nodes 5|allocate A,B,C,D 5 4
allocate --nodes 5 A --workers=16 B C D|allocate A,B,C,D 5 16
allocate A --workers 1 B --nodes=1000000 C D|allocate A,B,C,D 1000000 1
allocate --workers 7 --nodes 6 A B C D|allocate A,B,C,D 6 7
allocate A B C D --nodes 1|allocate A,B,C,D 1 4
allocate A B C D --nodes 0|no
allocate A B C D --nodes=1000001|no
allocate A B C D --workers 0|no
allocate A B C D --workers 17|no
allocate A B C D --nodes 5 --nodes 5|no
allocate --nodes=5 A B C D --nodes 6|no
allocate --workers=2 A B C D --workers=2|no
allocate A B C D --nodes -1|no
allocate A B C D --nodes=-1|no
allocate A B C D --nodes -|no
allocate A B C D --nodes=-|no
allocate A B C D --nodes 05|no
allocate A B C D --nodes=+5|no
allocate A B C D --nodes 5x|no
allocate A B C D --nodes=|no
allocate A B C D --nodes |no
allocate A B C D --nodes|no
allocate A B C D --nodes --workers 3|no
allocate A B C --nodes -- D|no
allocate A B C D --nodes=5=6|no
allocate A B C D --nodes=18446744073709551617|no
allocate A B C D --node 5|no
allocate A B C D --nodes5|no
allocate A B C D --Nodes 5|no
allocate A B C D -nodes 5|no
allocate A B C D -n 5|no
allocate A B C D --names=E|no
allocate A B C --names D|no
allocate A B C D --=5|no
allocate A B C D --help|no
allocate A B C D -h|no
",
    )
}

#[test]
fn words_are_names(rt: HostRuntime) {
    walk(
        &rt,
        rt.alloc(),
        &mut CommandWords,
        "\
check A B C|check A,B,C
check A B|no
check A B C D|no
check|no
check A B C --nodes 5|no
check A B C --workers=5|no
allocate A B C|no
allocate A B C D E|no
allocate|no
allocate - A  B|allocate -,A,,B 100000 4
check   |check ,,
allocate -- A B C D|allocate A,B,C,D 100000 4
allocate A B C D --|allocate A,B,C,D 100000 4
allocate A -- B -- C|allocate A,B,--,C 100000 4
allocate -- A B C D --|no
allocate -- --nodes 5 A B|allocate --nodes,5,A,B 100000 4
allocate -- --nodes=5 A B C|allocate --nodes=5,A,B,C 100000 4
allocate --nodes 5 -- -a --nodes=3 - --|allocate -a,--nodes=3,-,-- 5 4
check -- -A -B --help|check -A,-B,--help
check -A B C|no
check --A B C|no
check A=1 B=- =|check A=1,B=-,=
check allocate check help|check allocate,check,help
check é ü ß|check é,ü,ß
check -é A B|no
check -- -é A B|check -é,A,B
|no
allocat A B C D|no
allocates A B C D|no
Allocate A B C D|no
-- allocate A B C D|no
--|no
-- |no
- A B C|no
--check A B C|no
-check A B C|no
-é A B C|no
--nodes 5 allocate A B C D|no
 check A B C|no
help|no
help check|no
--help|no
-h|no
--version|no
-V|no
amend A B C D E|amend A,B,C,D,E
amend A B C D|no
amend A B C D E F|no
amend|no
amend A B C D E --nodes 5|no
amend A B C D E --workers=2|no
amend     |amend ,,,,
amend -- -a B C D -e|amend -a,B,C,D,-e
amend A - B -- -- C|amend A,-,B,--,C
amend -A B C D E|no
Amend A B C D E|no
amend A B C D E --|amend A,B,C,D,E
usage A B C D E|usage A,B,C,D,E
usage A B C D|no
usage A B C D E F|no
usage A B C D E --workers 1|no
reclear A B C D E F|reclear A,B,C,D,E,F 100000 4
reclear A B C D E|no
reclear A B C D E F G|no
reclear --nodes 64 A B C D E F --workers=16|reclear A,B,C,D,E,F 64 16
reclear A B C D E F --nodes 0|no
reclear A B C D E F --links 1|no
recheck A B C D E|recheck A,B,C,D,E
recheck A B C D|no
recheck A B C D E F|no
recheck A B C D E --nodes 5|no
report A B C D E|report A,B,C,D,E
report A B C D|no
report A B C D E --nodes 1|no
inspect A B|inspect A,B
inspect A|no
inspect A B C|no
inspect -- -A B|inspect -A,B
serve A B C D|serve A,B,C,D 1 7710 4
serve A B C|no
serve A B C D E|no
serve A B C D --links 1000 --port 65535 --workers 16|serve A,B,C,D 1000 65535 16
serve --workers=1 A B --port=1 C D --links=1|serve A,B,C,D 1 1 1
serve A B C D --links 0|no
serve A B C D --links 1001|no
serve A B C D --port 0|no
serve A B C D --port 65536|no
serve A B C D --workers 0|no
serve A B C D --workers 17|no
serve A B C D --links 2 --links 2|no
serve A B C D --port|no
serve A B C D --nodes 5|no
serve A B C D --link 5|no
serve A B C D --port 07|no
serve A B --port -1 C D|no
serve -- --links 5 A B|serve --links,5,A,B 1 7710 4
Serve A B C D|no
resume A B C D E|resume A,B,C,D,E 1 7710 4
resume A B C D|no
resume A B C D E F|no
resume A B C D E --links 1000 --port 65535 --workers 16|resume A,B,C,D,E 1000 65535 16
resume --workers=1 A B --port=1 C D --links=1 E|resume A,B,C,D,E 1 1 1
resume A B C D E --links 0|no
resume A B C D E --port 65536|no
resume A B C D E --workers 17|no
resume A B C D E --nodes 5|no
resume -- --links 5 A B C|resume --links,5,A,B,C 1 7710 4
"
            .as_bytes(),
    )
}

/// The two numbers stand before the names.
#[test]
fn words_ask_for_generated_seasons(rt: HostRuntime) {
    walk(
        &rt,
        rt.alloc(),
        &mut CommandWords,
        b"\
make 1 4 A B|make A,B 1 4
make 0 1 A B|make A,B 0 1
make 65536 4096 A B|make A,B 65536 4096
make 65537 1 A B|no
make 18446744073709551617 1 A B|no
make 1 0 A B|no
make 1 4097 A B|no
make 01 4 A B|no
make 1 04 A B|no
make +1 4 A B|no
make 1x 4 A B|no
make - 4 A B|no
make -1 4 A B|no
make -- -1 4 A B|no
make -- 1 4 -a -b|make -a,-b 1 4
make 1 -- 4 A --|make A,-- 1 4
make 1 4  -|make ,- 1 4
make  1 4 A B|no
make 1 4 A|no
make 1 4 A B C|no
make A B 1 4|no
make 1 4 A B --nodes 5|no
make 1 4 A B --nodes=5|no
make --units 4 1 A B|no
make|no
Make 1 4 A B|no
trial 1 4|trial 1 4
trial 0 1|trial 0 1
trial 65536 4096|trial 65536 4096
trial 65537 1|no
trial 1 0|no
trial 1 4097|no
trial 1 04|no
trial 1 4x|no
trial 1 |no
trial  4|no
trial -1 4|no
trial 1 --4|no
trial -- 1 4|trial 1 4
trial 1 -- 4|trial 1 4
trial 1 4 --|trial 1 4
trial 1 4 --workers 2|no
trial 1 4 A|no
trial 1|no
trial|no
trials 1 4|no
",
    )
}
