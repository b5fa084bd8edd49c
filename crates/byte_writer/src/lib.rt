// Bytes and two-byte numbers, written into a lent buffer.
#![tactic(auto)]

ghost use Rattle.std.specs.Prelude.{◌+◌, ◌<◌, ◌≡◌, [], ◌∷◌, length};
ghost use Rattle.byte_writer.specs.Bytes.{pair};
ghost use Rattle.byte_writer.specs.Fill.{laid};
ghost use Rattle.numbers.specs.Size.{byte_values};

// Writes the byte x at `at`.
// Equals: laid out at (x ∷ [])
pub fn put_byte(out: &mut [u8], at: usize, x: usize)
    requires { (at < length out.old) × (x < byte_values) }
    ensures { out.new ≡ laid out.old at (x ∷ []) }
{
    out[at] = x as u8;
}

// Writes x at `at`, in two bytes.
// Equals: laid out at (pair x)
pub fn put(out: &mut [u8], at: usize, x: usize)
    requires { at + 1 < length out.old }
    ensures { out.new ≡ laid out.old at (pair x) }
{
    out[at] = (x % 256) as u8;
    out[at + 1] = (x / 256 % 256) as u8;
}
