// The hand program: an arena of two segments, a work list, and what a person types (crate typed). Crate badlines is the same
// program on other input: a crate has one input and one output that it is held to.
#![tactic(auto)]

fn main(rt: HostRuntime) {
    let mut arena = [0u32; 8339];
    let mut list = [0u32; 4096];
    typed::run(&mut rt.stdin(), &mut rt.stdout(), &mut arena, &mut list);
}
