// The 16-bit numbers in bytes, low byte first, and bytes as they are. Beyond the last byte zeros are read and nothing is written.
#![tactic(auto)]

ghost use Rattle.std.specs.Prelude.{◌≡◌};
ghost use Rattle.std.proofs.lemmas.List.Edits.{sets};
ghost use Rattle.words.specs.Numbers.{bytes_of, number_at_of};

// The number in the two bytes at the place `at`. The two tests are what a loop over places runs fastest with: one of them does not
// depend on the place.
pub fn number_at(bytes: &[u8], at: usize) -> u16
    ensures { result ≡ number_at_of bytes.now at }
{
    if bytes.len() < 2 || bytes.len() - 2 < at {
        return bytes.get(at).map_or(0, |low| u16::from(*low));
    }
    u16::from_le_bytes([bytes[at], bytes[at + 1]])
}

// Writes a number into the two bytes at the place `at`.
pub fn put_number(output: &mut [u8], at: usize, number: u16)
    ensures { output.new ≡ sets output.old at (bytes_of number) }
{
    let bytes = number.to_le_bytes();
    if output.len() < 2 || output.len() - 2 < at {
        if at < output.len() {
            output[at] = bytes[0];
        }
        return;
    }
    output[at..at + 2].copy_from_slice(&bytes);
}

// Writes the bytes of `input` into the first places of `output`, as many as there are. A loop, for the library's `copy_from_slice`
// has the archive for C need `memmove` from outside.
pub fn copy(input: &[u8], output: &mut [u8])
    ensures { output.new ≡ sets output.old 0 input.now }
{
    let count = input.len().min(output.len());
    for i in 0..count {
        output[i] = input[i];
    }
}
