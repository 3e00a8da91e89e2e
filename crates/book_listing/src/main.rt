// Lists the readings of a book: a line for every frame of it, or why it is refused.

#![tactic(auto)]

fn main(rt: HostRuntime) {
    lister::list_book(&mut rt.stdin());
}
