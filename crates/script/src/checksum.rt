// The checksum of a list of values.
ghost use Rattle.std.specs.Prelude.{◌≡◌, fold};
ghost use Rattle.script.specs.Checksum.{absorb};

// the largest prime below 2^32, so that no step leaves 64 bits
const MODULUS: u64 = 4294967291;

// what the checksum is multiplied by before the next value is added
const MULTIPLIER: u64 = 1000003;

// The checksum after one value more.
pub fn absorb(sum: u64, value: u64) -> u64
    ensures { result ≡ absorb sum value }
{
    (sum % MODULUS * MULTIPLIER + value % MODULUS) % MODULUS
}

// The checksum after the values of a list in order.
pub fn absorb_all(sum: u64, values: &[u64]) -> u64
    ensures { result ≡ fold absorb sum values.now }
{
    values
        .iter()
        .fold(sum, |total, value| absorb(total, *value))
}
