// Document 01's listing: reads a tree file from standard input and prints its program, or `refused N`.
#![tactic(auto)]

use frames::Session;

fn main(rt: HostRuntime) {
    let session = Session {
        rt: &rt,
        answers: rt.stdout(),
        messages: rt.stderr(),
    };
    frames::tell(session.pft_list());
}
