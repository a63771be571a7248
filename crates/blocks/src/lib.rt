// Blocks that a caller sends: a command framed as a whole block.
#![tactic(auto)]

ghost use Rattle.std.specs.Prelude.{◌≡◌, ◌+◌, ◌≤◌, ◌++◌, length, drop};
ghost use Rattle.blocks.specs.Blocks.{command_block, block_length, buffer_after};

// The block of a command whose data fits, at the front of the buffer. A twin of wire's `put_frame`, and no call of it: that takes the
// bytes in one piece, and gathering them first made a block with no data dearer by a third. And no must-fail edit could plant a slip
// in the count or the check value beside such a call: a right program in its place was refused too (docs/DESIGN-PASS.md, 3).
fn put_fitting(opcode: u8, param1: u8, param2: u16, input: &[u8], out: &mut [u8])
    requires short_enough { length input.now ≤ 77 }
    requires room { length input.now + 7 ≤ length out.old }
    ensures { out.new ≡ command_block opcode param1 param2 input.now ++ drop (length input.now + 7) out.old }
{
    let n = input.len();
    // a loop: a copy between two lent slices needs memmove, which the archive for C does not ask of its caller
    for i in 0..n {
        out[5 + i] = input[i];
    }
    let [low, high] = param2.to_le_bytes();
    out[0] = (n + 7) as u8;
    out[1..5].copy_from_slice(&[opcode, param1, low, high]);
    let check = wire::check_value(0, &out[..n + 5]);
    out[n + 5..n + 7].copy_from_slice(&check.to_le_bytes());
}

// The block of a command with up to 77 bytes of data, at the front of a buffer that has room for it; its length. Else nothing, and 0:
// a count of the bytes put, as its promise's `block_length` and the length in C are.
#[tactic(auto, unfolding(crate::specs::Blocks::fits, crate::specs::Blocks::block_length, crate::specs::Blocks::buffer_after))]
pub fn put_block(opcode: u8, param1: u8, param2: u16, input: &[u8], out: &mut [u8]) -> usize
    ensures value { result ≡ block_length input.now out.old }
    ensures out_after { out.new ≡ buffer_after opcode param1 param2 input.now out.old }
{
    let n = input.len();
    if 77 < n || out.len() < n + 7 {
        return 0;
    }
    put_fitting(opcode, param1, param2, input, out);
    n + 7
}
