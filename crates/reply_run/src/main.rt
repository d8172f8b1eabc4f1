// The reply to listings of every kind, refused ones among them. Standard input holds cases, one after the other: how long the
// output is and how long the listing, as 16-bit numbers, low byte first, and the listing. For each case it writes how many bytes
// the reply has, as such a number, and the reply. `tools/listing-check ANSWERS --write` made stdin, and from it stdout, by a model
// that shares nothing with the program.
#![tactic(auto)]

fn main(rt: HostRuntime) {
    let mut input = blocks::input_block();
    let block = blocks::read_block(&rt, &mut input);
    try_all(&rt, block.bytes);
}

fn try_all(rt: &(impl Print + Eprint), cases: &[u8]) {
    let mut rest = cases;
    while let Some((lengths, after)) = rest.split_at_checked(4) {
        let room = words::number_at(lengths, 0);
        let length = usize::from(words::number_at(lengths, 2));
        let Some((listing, next)) = after.split_at_checked(length) else {
            return;
        };
        if !try_one(rt, listing, room) {
            return;
        }
        rest = next;
    }
}

// Replies to one listing, in an output of `room` bytes, and answers whether the reply was written.
fn try_one(rt: &(impl Print + Eprint), listing: &[u8], room: u16) -> bool {
    let mut output = [0u8; 65536];
    let output = &mut output[..usize::from(room)];
    let n = reply::reply_to(listing, output);
    let count = (n as u16).to_le_bytes();
    blocks::write_block(rt, &count) && blocks::write_block(rt, &output[..n])
}
