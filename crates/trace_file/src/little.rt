// Numbers as they stand in a file, the lowest byte first.
ghost use Rattle.std.specs.Prelude.{ℕ, ◌≤◌, length};
ghost use Rattle.trace_file.specs.Reading.{Stands};

// A number of `N` bytes.
pub(crate) trait Little<const N: usize>: Sized {
    ghost value: { Self → ℕ };

    // The number that the bytes begin with. No array: the `unwrap` that takes one out of a slice is a test that `check` would pay for.
    fn from_little(bytes: &[u8]) -> Self
        requires { N ≤ length bytes.now }
        ensures { Stands N (value result) bytes.now };
}

impl Little<2> for u16 {
    ghost value = { λ n. n };

    fn from_little(bytes: &[u8]) -> u16 {
        u16::from_le_bytes([bytes[0], bytes[1]])
    }
}

impl Little<4> for u32 {
    ghost value = { λ n. n };

    fn from_little(bytes: &[u8]) -> u32 {
        u32::from_le_bytes([bytes[0], bytes[1], bytes[2], bytes[3]])
    }
}
