// The hand program again, on bad lines of every sort: a crate has one input and one output that it is held to
// (crate store has document 01's run), and one main for both would be no shorter.
#![tactic(auto)]

fn main(rt: HostRuntime) {
    let mut arena = [0u32; 8339];
    let mut list = [0u32; 4096];
    typed::run(&mut rt.stdin(), &mut rt.stdout(), &mut arena, &mut list);
}
