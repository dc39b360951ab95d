// Numbers in a file's bytes, least significant byte first.
ghost use Rattle.std.specs.Prelude.{◌≡◌, ◌+◌, ◌<◌, ◌≤◌, length};
ghost use Rattle.films.specs.Questions.{half};
ghost use Rattle.films.specs.Sizes.{size};

// The 16 bits at an offset.
pub(crate) fn half_at(file: &[u8], at: usize) -> u16
    requires { at + 2 ≤ length file.now }
    ensures { result ≡ half file.now at }
{
    u16::from_le_bytes([file[at], file[at + 1]])
}

// The size at an offset: 32 bits.
pub fn size_at(file: &[u8], at: usize) -> u64
    requires { at + 4 ≤ length file.now }
    ensures { result ≡ size file.now at }
{
    u64::from(u32::from_le_bytes([file[at], file[at + 1], file[at + 2], file[at + 3]]))
}
