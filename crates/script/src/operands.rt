// An operation's numbers, least significant byte first. A byte past the script's end counts as 0, so that every script has a
// meaning.
ghost use Rattle.std.specs.Prelude.{◌≡◌, ◌+◌, ◌<◌, ◌≤◌, length, take, drop};
ghost use Rattle.script.specs.Operands.{byte, half, word, long};

// bytes of a script, at most
pub const MAX_SCRIPT: usize = 131072;

// An operation: the script from the operation's opcode on.
#[derive(Clone, Copy)]
pub struct Operation<'a> {
    pub script: &'a [u8],
}

impl<'a> Operation<'a> {
    // The byte at an offset.
    pub fn u8(self, offset: usize) -> u8
        ensures { result ≡ byte self.entry.script.now offset }
    {
        self.script.get(offset).copied().unwrap_or(0)
    }

    // The 16 bits at an offset.
    pub fn u16(self, offset: usize) -> u16
        requires { offset < 256 }
        ensures { result ≡ half self.entry.script.now offset }
    {
        u16::from_le_bytes([self.u8(offset), self.u8(offset + 1)])
    }

    // The 32 bits at an offset.
    pub fn u32(self, offset: usize) -> u32
        requires { offset < 128 }
        ensures { result ≡ word self.entry.script.now offset }
    {
        u32::from(self.u16(offset)) + 65536 * u32::from(self.u16(offset + 2))
    }

    // The 64 bits at an offset.
    pub fn u64(self, offset: usize) -> u64
        requires { offset < 64 }
        ensures { result ≡ long self.entry.script.now offset }
    {
        u64::from(self.u32(offset)) + 4294967296 * u64::from(self.u32(offset + 4))
    }

    // The opcode.
    pub fn opcode(self) -> u8
        ensures { result ≡ byte self.entry.script.now 0 }
    {
        self.u8(0)
    }

    // The bytes at an offset, as many of `count` as the script has.
    pub fn bytes(self, offset: usize, count: usize) -> &'a [u8]
        ensures { result.now ≡ take count (drop offset self.entry.script.now) }
    {
        let rest = self.script.get(offset..).unwrap_or(&[]);
        &rest[..count.min(rest.len())]
    }

    // The script after the operation's opcode and as many bytes of operands.
    pub fn after(self, operands: usize) -> &'a [u8]
        ensures { result.now ≡ drop (operands + 1) self.entry.script.now }
    {
        match self.script {
            [] => &[],
            [_, rest @ ..] => &rest[operands.min(rest.len())..],
        }
    }
}
