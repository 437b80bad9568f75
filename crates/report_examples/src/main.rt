// The report program on files: each argument names one, and its report, or its refusal, is printed under a heading with that name. The stored examples:
//
//     alone.image      one handset, whose group has no reach: no tie joins two members
//     beyond.image     a group whose longest tie is beyond gamma and from which a near tie leaves that is longer than its reach: neither counts for it
//     blank.image      site S with a blank mu, which means 4: two groups, and a border in both
//     empty.image      no handset, no tie, no group
//     hub.image        handset 0 is a border in five groups, and the last handset an outlier
//     limit.image      two groups: the reach of the first is exactly G, that of the second is a tie's between two that are not alike
//     refused.image    site S whose tie 5 repeats tie 3 the other way round
//     three.image      site S with mu 3 written out: one group of seven
//     totals.image     four totals that differ: borders in one, two and three groups, and two outliers
#![tactic(auto)]

use std::fs::File;
use std::{env, io};

// Prints the report of the file of that name, or says on standard error why it cannot be opened.
fn print_example(rt: &HostRuntime, name: &str) -> io::Result<()> {
    let mut file = match File::open(rt, name) {
        Ok(file) => file,
        Err(error) => return eprintln!(rt; "{name}: {error}"),
    };
    println!(rt; "== {name}")?;
    report_run::print_report(rt, &mut file)
}

fn main(rt: HostRuntime) -> io::Result<()> {
    for name in env::args(&rt)?.skip(1) {
        print_example(&rt, name.as_str())?;
    }
    Ok(())
}
