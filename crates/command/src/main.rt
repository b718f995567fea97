// The program of bin/pft.
#![tactic(auto)]

use frames::{Arguments, CommandLine, Session};

fn main(rt: HostRuntime) {
    let session = Session {
        rt: &rt,
        answers: rt.stdout(),
        messages: rt.stderr(),
    };
    let arguments = Arguments {
        first: 1,
        end: frames::argument_count(&rt),
    };
    frames::tell(session.pft_by_number(&CommandLine::read(&rt, arguments)));
}
