// A test: runs the calls that stand in a text on standard input, one to a line, and writes what each answers; the second program writes the same.

#![tactic(auto)]

mod calling;
mod keeping;
mod room;
mod running;
mod setting;
mod showing;

// A text that fills the room may be longer than it.
fn main(rt: HostRuntime) {
    let mut text = [0; 262144];
    let came = input::read_whole(&mut rt.stdin(), &mut text);
    let long = came.count;
    if long == 262144 {
        showing::print(b"too long a text\n");
    } else {
        running::run_text(&text[..long]);
    }
}
