// A program as another crate may write one over `input`: it prints the first seven bytes of its input, or nothing where
// a read fails. A test of `input::print`, which `judge` and `sheet` do not call.
#![tactic(auto)]

// To be read, as in `judge`: the reading is what `read` answered, and it is printed once. A proof file names the text.
fn main(rt: HostRuntime) {
    let mut input = [0u8; 7];
    let reading = input::read(rt.stdin(), &mut input);
    let lines = match reading {
        Some(count) => &input[..count],
        None => &[],
    };
    input::print(rt.stdout(), lines, &input, reading);
}
