// Makes a frame, 32 bytes, of every typed line "house poll counter" that comes in.

#![tactic(auto)]

fn main(rt: HostRuntime) {
    maker::make_frames(&mut rt.stdin());
}
