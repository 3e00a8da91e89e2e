// Lists the readings of frames, 32 bytes each: a line for every frame that comes in.

#![tactic(auto)]

fn main(rt: HostRuntime) {
    lister::list(&mut rt.stdin());
}
