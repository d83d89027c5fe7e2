// The printing program (document 01, "The printing program"). A read that fails and output that cannot be written are said on standard error.
#![tactic(auto)]

use descriptor::{Heard, fail};
use report_loop::{Failure, run};

fn main(rt: HostRuntime) {
    let mut from = Heard::new(rt.stdin());
    let mut to = Heard::new(rt.stdout());
    match run(&mut from, &mut to) {
        Ok(_) => {}
        Err(Failure::Unreadable(_)) => fail(&rt, "report: the input cannot be read", from.error()),
        Err(Failure::Unwritable) => fail(&rt, "report: the output cannot be written", to.error()),
    }
}
