// A test: the program listing with six nights of made-up readings as its stored input; the second program lists the same.

#![tactic(auto)]

fn main(rt: HostRuntime) {
    lister::list(&mut rt.stdin());
}
