// The desk's C interface (include/chhutirok.h): an export for each call, which is the function of its name in the crate desk, and promises
// what that promises. In a crate of its own, since the kit's crate is a library or a static library.
#![tactic(auto)]

ghost use Rattle.std.specs.Prelude.{◌≡◌};
ghost use Rattle.rules.specs.Events.{wake, idle, sleep, block};
ghost use Rattle.blocks.specs.Blocks.{block_length, buffer_after};
ghost use Rattle.desk.specs.Desk.{number, state_after, output_of, answer_length, fresh_call_number, fresh_state, frame_number, version};

#[unsafe(no_mangle)]
pub extern "C" fn chhutirok_fresh(image: &[u8], state: &mut [u8]) -> u32
    ensures value { result ≡ fresh_call_number image.now state.old }
    ensures state_after { state.new ≡ fresh_state image.now state.old }
{
    desk::chhutirok_fresh(image, state)
}

#[unsafe(no_mangle)]
pub extern "C" fn chhutirok_wake(
    state: &mut [u8],
    random: &[u8],
    output: &mut [u8],
    length: &mut usize,
) -> u32
    ensures value { result ≡ number state.old wake random.now output.old }
    ensures state_after { state.new ≡ state_after state.old wake random.now output.old }
    ensures output_after { output.new ≡ output_of state.old wake random.now output.old }
    ensures length_after { length.new ≡ answer_length state.old wake random.now output.old }
{
    desk::chhutirok_wake(state, random, output, length)
}

#[unsafe(no_mangle)]
pub extern "C" fn chhutirok_idle(
    state: &mut [u8],
    random: &[u8],
    output: &mut [u8],
    length: &mut usize,
) -> u32
    ensures value { result ≡ number state.old idle random.now output.old }
    ensures state_after { state.new ≡ state_after state.old idle random.now output.old }
    ensures output_after { output.new ≡ output_of state.old idle random.now output.old }
    ensures length_after { length.new ≡ answer_length state.old idle random.now output.old }
{
    desk::chhutirok_idle(state, random, output, length)
}

#[unsafe(no_mangle)]
pub extern "C" fn chhutirok_sleep(
    state: &mut [u8],
    random: &[u8],
    output: &mut [u8],
    length: &mut usize,
) -> u32
    ensures value { result ≡ number state.old sleep random.now output.old }
    ensures state_after { state.new ≡ state_after state.old sleep random.now output.old }
    ensures output_after { output.new ≡ output_of state.old sleep random.now output.old }
    ensures length_after { length.new ≡ answer_length state.old sleep random.now output.old }
{
    desk::chhutirok_sleep(state, random, output, length)
}

#[unsafe(no_mangle)]
pub extern "C" fn chhutirok_block(
    state: &mut [u8],
    sent: &[u8],
    random: &[u8],
    output: &mut [u8],
    length: &mut usize,
) -> u32
    ensures value { result ≡ number state.old (block sent.now) random.now output.old }
    ensures state_after { state.new ≡ state_after state.old (block sent.now) random.now output.old }
    ensures output_after { output.new ≡ output_of state.old (block sent.now) random.now output.old }
    ensures length_after { length.new ≡ answer_length state.old (block sent.now) random.now output.old }
{
    desk::chhutirok_block(state, sent, random, output, length)
}

#[unsafe(no_mangle)]
pub extern "C" fn chhutirok_frame(
    opcode: u8,
    param1: u8,
    param2: u16,
    input: &[u8],
    buffer: &mut [u8],
    length: &mut usize,
) -> u32
    ensures value { result ≡ frame_number input.now buffer.old }
    ensures buffer_after { buffer.new ≡ buffer_after opcode param1 param2 input.now buffer.old }
    ensures length_after { length.new ≡ block_length input.now buffer.old }
{
    desk::chhutirok_frame(opcode, param1, param2, input, buffer, length)
}

#[unsafe(no_mangle)]
pub extern "C" fn chhutirok_version() -> u32
    ensures { result ≡ version }
{
    desk::chhutirok_version()
}
