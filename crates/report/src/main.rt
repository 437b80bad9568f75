// The report program: an image on standard input, its report on standard output. The stored example is site S with mu 4.
#![tactic(auto)]

use std::io;

fn main(rt: HostRuntime) -> io::Result<()> {
    report_run::print_report(&rt, &mut rt.stdin())
}
